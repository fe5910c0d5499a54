// A call file read whole, before anything is made of its day.
ghost use Rattle.std.specs.Prelude.{◌≡◌, IfOk, IfErr, Ok, Err};
ghost use Rattle.callfile.specs.declared.faults.Fault.{Fault};
ghost use Rattle.callfile.specs.Laws.{WritesBack};
ghost use Rattle.callfile.specs.Reading.{day_of};
ghost use Rattle.listing.specs.Reports.{day_from};
ghost use Rattle.listing.specs.declared.stops.Stop.TheVariants.{AtFault, Memory};

use crate::rows::rows;
use crate::stops::Stop;
use callfile::{GroupKind, GroupTable, Summary, check, read};
use cards::CardKind;
use parts::calls::Call;
use std::alloc::Global;

// The day that the file holds, in few words and with its calls; its groups become the book's.
pub(crate) fn read_day<C: CardKind, G: GroupKind, T: GroupTable<G>>(
    heap: Global,
    file: &[u8],
    book: &mut T,
) -> Result<(Summary<C>, Vec<Call<C>>), Stop>
    ensures day { IfOk result (λ r. day_of C.CardKind.WIDTH C.CardKind.parse G.GroupKind.entry_of C.CardKind.KIND G.GroupKind.BOOK_KIND file.now ≡ Ok (day_from r.0 (T.GroupTable.groups book.new) r.1.items)) }
    ensures fault { IfErr result (λ e. (f : Fault) → e ≡ AtFault f → day_of C.CardKind.WIDTH C.CardKind.parse G.GroupKind.entry_of C.CardKind.KIND G.GroupKind.BOOK_KIND file.now ≡ Err f) }
    ensures same { WritesBack C.CardKind.KIND G.GroupKind.BOOK_KIND C.CardKind.WIDTH C.CardKind.shape G.GroupKind.entry_bytes G.GroupKind.keeps C.CardKind.parse G.GroupKind.entry_of file.now }
{
    let day = check::<C, G>(file)?;
    let mut calls = rows(heap, Call::Enter(day.founding.founder), day.calls)?;
    let day = read::<C, G, T>(file, book, &mut calls)?;
    Ok((day, calls))
}
