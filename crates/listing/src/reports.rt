// What a program says of a call file.
ghost use Rattle.std.specs.Prelude.{◌≡◌, Ok, IfOk, IfErr, string_bytes};
ghost use Rattle.callfile.specs.declared.faults.Fault.{Fault};
ghost use Rattle.callfile.specs.Kinds.{kinds_of};
ghost use Rattle.callfile.specs.Laws.{WritesBack};
ghost use Rattle.callfile.specs.Reading.{day_of};
ghost use Rattle.listing.specs.declared.stops.Stop.TheVariants.{AtFault};
ghost use Rattle.listing.specs.Lines.{fault_line};
ghost use Rattle.listing.specs.Reports.{day_from, Saying, FileSaid, KindSaid};

use crate::lines::FaultLine;
use crate::reading::read_day;
use crate::stops::Stop;
use books::book::Book;
use books::sets::{SetsBook, SetsGroup};
use books::votes::{VotesBook, VotesGroup};
use callfile::{BookSort, CardSort, GroupKind, GroupTable, Summary, kinds_of};
use cards::{CardKind, Sheet, SourCard};
use parts::calls::Call;
use std::alloc::{AllocError, Global};

// What is to be said of a day.
pub(crate) trait Report {
    // Whether a text is that.
    ghost says: { Saying };

    // The text for the day that was read from a file: its groups are in the book.
    fn text<C: CardKind, G: GroupKind, B: GroupTable<G> + Book + Drop>(
        heap: Global,
        file: &[u8],
        book: B,
        day: Summary<C>,
        calls: &[Call<C>],
    ) -> Result<String, AllocError>
        requires day { day_of C.CardKind.WIDTH C.CardKind.parse G.GroupKind.entry_of C.CardKind.KIND G.GroupKind.BOOK_KIND file.now ≡ Ok (day_from day (B.GroupTable.groups book) calls.now) }
        requires same { WritesBack C.CardKind.KIND G.GroupKind.BOOK_KIND C.CardKind.WIDTH C.CardKind.shape G.GroupKind.entry_bytes G.GroupKind.keeps C.CardKind.parse G.GroupKind.entry_of file.now }
        ensures { IfOk result (λ t. says _ _ _ C.CardKind.shape B.Book.size B.Book.members_of B.Book.reads B.Book.writes B.GroupTable.groups (day_from day (B.GroupTable.groups book) calls.now) file.now (string_bytes t)) };
}

// The text for a file of these kinds of card, of group and of book.
fn file_text<C: CardKind, G: GroupKind, B: GroupTable<G> + Book + Drop, R: Report>(
    heap: Global,
    file: &[u8],
    mut book: B,
) -> Result<String, Stop>
    ensures text { IfOk result (λ t. FileSaid R.says C.CardKind.shape B.Book.size B.Book.members_of B.Book.reads B.Book.writes B.GroupTable.groups (day_of C.CardKind.WIDTH C.CardKind.parse G.GroupKind.entry_of C.CardKind.KIND G.GroupKind.BOOK_KIND file.now) file.now (string_bytes t)) }
    ensures fault { IfErr result (λ e. (f : Fault) → e ≡ AtFault f → FileSaid R.says C.CardKind.shape B.Book.size B.Book.members_of B.Book.reads B.Book.writes B.GroupTable.groups (day_of C.CardKind.WIDTH C.CardKind.parse G.GroupKind.entry_of C.CardKind.KIND G.GroupKind.BOOK_KIND file.now) file.now (fault_line f)) }
{
    let (day, calls) = read_day::<C, G, B>(heap, file, &mut book)?;
    Ok(R::text::<C, G, B>(heap, file, book, day, &calls)?)
}

// The text for a file of any kinds.
fn kind_text<R: Report>(heap: Global, file: &[u8]) -> Result<String, Stop>
    ensures text { IfOk result (λ t. KindSaid R.says (kinds_of file.now) file.now (string_bytes t)) }
    ensures fault { IfErr result (λ e. (f : Fault) → e ≡ AtFault f → KindSaid R.says (kinds_of file.now) file.now (fault_line f)) }
{
    match kinds_of(file)? {
        (CardSort::Sheet, BookSort::Votes) => file_text::<Sheet, VotesGroup, VotesBook, R>(
            heap,
            file,
            VotesBook::new(),
        ),
        (CardSort::Sour, BookSort::Votes) => file_text::<SourCard, VotesGroup, VotesBook, R>(
            heap,
            file,
            VotesBook::new(),
        ),
        (CardSort::Sheet, BookSort::Sets) => file_text::<Sheet, SetsGroup, SetsBook, R>(
            heap,
            file,
            SetsBook::new(),
        ),
        (CardSort::Sour, BookSort::Sets) => file_text::<SourCard, SetsGroup, SetsBook, R>(
            heap,
            file,
            SetsBook::new(),
        ),
    }
}

// The text for a file, or the line that says what is wrong with it.
pub(crate) fn report_of<R: Report>(heap: Global, file: &[u8]) -> Result<String, AllocError>
    ensures { IfOk result (λ t. KindSaid R.says (kinds_of file.now) file.now (string_bytes t)) }
{
    match kind_text::<R>(heap, file) {
        Ok(text) => Ok(text),
        Err(Stop::AtFault(fault)) => FaultLine(fault).to_string(heap),
        Err(Stop::Memory(error)) => Err(error),
    }
}
