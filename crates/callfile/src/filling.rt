// Reading a call file into the caller's book and list.
ghost use Rattle.std.specs.Prelude.{◌≡◌, ◌+◌, ◌/◌, ◌<◌, ◌≤◌, ◌++◌, length, drop, None, OnErr, slice_set};
ghost use Rattle.books.specs.Books.{table_groups};
ghost use Rattle.callfile.specs.Limits.{head_length, entry_width, longest};
ghost use Rattle.callfile.specs.Faults.{fault_in};
ghost use Rattle.callfile.specs.Reading.{groups_of, calls_of, day_of};
ghost use Rattle.callfile.specs.Filling.{gained, placed};

use crate::calls::Calls;
use crate::faults::Fault;
use crate::groups::{GroupKind, GroupTable};
use crate::limits::{CALLS_OFFSET_AT, CARD_OFFSET_AT, ENTRY, HEADER};
use crate::reading::check;
use crate::summary::Summary;
use books::causes::Cause;
use cards::CardKind;
use cards::words::word_at;
use parts::calls::Call;

// The groups of the book become those of the entries, which have been checked.
#[tactic(auto, using(crate::proofs::GroupFills::groups_begin, crate::proofs::GroupFills::groups_end))]
fn fill_groups<G: GroupKind, T: GroupTable<G>>(entries: &[u8], book: &mut T)
    requires { (length entries.now / entry_width ≤ table_groups) × (fault_in (groups_of G.GroupKind.entry_of head_length (length entries.now / entry_width) entries.now) ≡ None) }
    ensures { T.GroupTable.groups book.new ≡ gained (groups_of G.GroupKind.entry_of head_length (length entries.now / entry_width) entries.now) }
{
    book.clear();
    let (rows, _) = entries.as_chunks::<ENTRY>();
    for entry in rows {
        book.append_entry(entry).unwrap();
    }
}

// The list becomes the calls, which have been checked.
#[tactic(auto, using(crate::proofs::CallFills::call_there, crate::proofs::CallFills::fill_again, crate::proofs::CallFills::fill_end))]
fn fill_calls<C: CardKind>(mut calls: Calls, list: &mut [Call<C>])
    requires { fault_in (calls_of C.CardKind.WIDTH C.CardKind.parse calls.byte (length list.old) calls.rest.now) ≡ None }
    ensures { list.new ≡ gained (calls_of C.CardKind.WIDTH C.CardKind.parse calls.entry.byte (length list.old) calls.entry.rest.now) }
{
    for place in list {
        *place = calls.next_call::<C>().unwrap();
    }
}

// Reads the file: its groups become the book's, and its calls go into the front of the list. With a fault, both stay as they are,
// the book also in what its groups do not show.
pub fn read<C: CardKind, G: GroupKind, T: GroupTable<G>>(
    file: &[u8],
    book: &mut T,
    list: &mut [Call<C>],
) -> Result<Summary<C>, Fault>
    ensures answer { (result, T.GroupTable.groups book.new, list.new) ≡ placed (day_of C.CardKind.WIDTH C.CardKind.parse G.GroupKind.entry_of C.CardKind.KIND G.GroupKind.BOOK_KIND file.now) (T.GroupTable.groups book.old) list.old }
    ensures untouched { OnErr result (book.new ≡ book.old) }
{
    let day = check::<C, G>(file)?;
    if list.len() < day.calls {
        return Err(Fault::file(Cause::NoRoom));
    }
    let card_at = usize::from(word_at(file, CARD_OFFSET_AT));
    let calls_at = usize::from(word_at(file, CALLS_OFFSET_AT));
    fill_groups::<G, T>(&file[HEADER..card_at], book);
    fill_calls(Calls::new(file, calls_at), &mut list[..day.calls]);
    Ok(day)
}
