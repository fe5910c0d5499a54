// Writing a call file.
ghost use Rattle.std.specs.Prelude.{◌≡◌, ◌<◌, ◌≤◌, ◌^◌, true, length, take, IfOk, None, Ok};
ghost use Rattle.std.specs.List.{flat_map, AllByRecursion};
ghost use Rattle.books.specs.Books.{table_groups};
ghost use Rattle.callfile.specs.Limits.{head_length, longest};
ghost use Rattle.callfile.specs.Letters.{narrow, size_of};
ghost use Rattle.callfile.specs.Format.{call_bytes, head_bytes, render};
ghost use Rattle.callfile.specs.Reading.{limit_fault, day_of};
ghost use Rattle.callfile.specs.Laws.{ReadsBack};
ghost use Rattle.callfile.specs.Writing.{total_of, day_with, written};

use crate::faults::Fault;
use crate::groups::{GroupKind, GroupTable};
use crate::letters::{front, size_of_call};
use crate::limits::{CALL, ENTRY, HEADER, TERMINALS_AT};
use crate::measuring::measured;
use crate::summary::Summary;
use cards::CardKind;
use cards::words::put_words;
use parts::calls::Call;
use parts::foundings::Founding;

// Each function but the last writes over the whole of `out`, which is as long as what it writes. Each asks for just what it needs of the day
// (its length, small numbers, few groups); a type that held all of that would ask every one of them for all of it.

// The header.
fn put_head<C: CardKind, G: GroupKind>(out: &mut [u8], day: &Summary<C>)
    requires long { length out.old ≡ head_length }
    requires terminals { day.now.founding.terminals < 2 ^ 16 }
    requires founder { day.now.founding.founder.0 < 2 ^ 16 }
    requires groups { day.now.groups ≤ table_groups }
    requires calls { day.now.calls < 2 ^ 16 }
    ensures { out.new ≡ head_bytes C.CardKind.KIND G.GroupKind.BOOK_KIND C.CardKind.WIDTH day.now.founding.terminals day.now.founding.founder.0 day.now.groups day.now.calls }
{
    let card_at = HEADER + ENTRY * day.groups;
    let (kinds, fields) = out.split_at_mut(TERMINALS_AT);
    kinds.copy_from_slice(&[C::KIND, G::BOOK_KIND]);
    // No cast loses bits, as the clauses above say; `try_from` would have to be unwrapped.
    let words = [
        day.founding.terminals as u16,
        day.founding.founder.0 as u16,
        day.groups as u16,
        HEADER as u16,
        card_at as u16,
        day.calls as u16,
        (card_at + C::WIDTH) as u16,
    ];
    put_words(fields, &words).unwrap();
}

// The groups of the book, one behind the other.
#[tactic(auto, using(crate::proofs::Pieces::put_room, crate::proofs::Pieces::put_again, crate::proofs::Pieces::put_end))]
fn put_groups<G: GroupKind, T: GroupTable<G>>(out: &mut [u8], book: &T)
    requires { length out.old ≡ length (flat_map G.GroupKind.entry_bytes (T.GroupTable.groups book.now)) }
    ensures { out.new ≡ flat_map G.GroupKind.entry_bytes (T.GroupTable.groups book.now) }
{
    // By ranges and by number: the check does not know what `chunks_exact_mut` leaves in `out`, and the questions that a book of any kind answers are how many groups it has and which the i-th is.
    for i in 0..book.group_count() {
        let group = book.group_at(i).unwrap();
        let entry = &mut out[ENTRY * i..ENTRY * i + ENTRY];
        group.write_group(entry).unwrap();
    }
}

// A call.
fn put_call<C: CardKind>(out: &mut [u8], call: &Call<C>)
    requires { (narrow call.now ≡ true) × (length out.old ≡ size_of C.CardKind.WIDTH call.now) }
    ensures { out.new ≡ call_bytes C.CardKind.shape call.now }
{
    let (letters, behind) = out.split_at_mut(CALL);
    letters.copy_from_slice(&front(call));
    if let Call::Write(_, card) = call {
        card.write(behind).unwrap();
    }
}

// The calls, one behind the other.
#[tactic(auto, using(crate::proofs::Pieces::put_room, crate::proofs::Pieces::put_again, crate::proofs::Pieces::put_end))]
fn put_calls<C: CardKind>(out: &mut [u8], calls: &[Call<C>])
    requires { (AllByRecursion (λ c. narrow c ≡ true) calls.now) × (length out.old ≡ length (flat_map (call_bytes C.CardKind.shape) calls.now)) }
    ensures { out.new ≡ flat_map (call_bytes C.CardKind.shape) calls.now }
{
    // A running sum beside the loop: with `scan` the closure would have to carry it, and the contract of the walk.
    let mut byte = 0;
    for call in calls {
        let size = size_of_call(call);
        put_call(&mut out[byte..byte + size], call);
        byte += size;
    }
}

// The whole file.
#[tactic(auto, using(crate::proofs::Headers::limit_none, crate::proofs::CallPuts::few_calls, crate::proofs::There::length_groups))]
fn put_day<C: CardKind, G: GroupKind, T: GroupTable<G>>(
    out: &mut [u8],
    day: &Summary<C>,
    book: &T,
    calls: &[Call<C>],
)
    requires small { AllByRecursion (λ c. narrow c ≡ true) calls.now }
    requires limits { limit_fault day.now.founding.terminals day.now.founding.founder.0 day.now.groups ≡ None }
    requires groups { day.now.groups ≡ length (T.GroupTable.groups book.now) }
    requires calls { day.now.calls ≡ length calls.now }
    requires long { length out.old ≡ total_of C.CardKind.WIDTH C.CardKind.shape day.now.groups calls.now }
    requires short { length out.old ≤ longest }
    ensures { out.new ≡ render C.CardKind.KIND G.GroupKind.BOOK_KIND C.CardKind.WIDTH C.CardKind.shape G.GroupKind.entry_bytes (day_with day.now.founding.terminals day.now.founding.founder (T.GroupTable.groups book.now) day.now.founding.first calls.now) }
{
    let (head, body) = out.split_at_mut(HEADER);
    let (entries, behind) = body.split_at_mut(ENTRY * day.groups);
    let (card, letters) = behind.split_at_mut(C::WIDTH);
    put_head::<C, G>(head, day);
    put_groups(entries, book);
    day.founding.first.write(card).unwrap();
    put_calls(letters, calls);
}

// Writes the file of a day into the front of `out`, and answers its length; with a fault, `out` stays as it is.
// What was written is read as the same day, and so is the file of every day that has one.
pub fn write<C: CardKind, G: GroupKind, T: GroupTable<G>>(
    founding: Founding<C>,
    book: &T,
    calls: &[Call<C>],
    out: &mut [u8],
) -> Result<usize, Fault>
    ensures answer { (result, out.new) ≡ written C.CardKind.KIND G.GroupKind.BOOK_KIND C.CardKind.WIDTH C.CardKind.shape G.GroupKind.entry_bytes (day_with founding.terminals founding.founder (T.GroupTable.groups book.now) founding.first calls.now) out.old }
    ensures again { IfOk result (λ n. day_of C.CardKind.WIDTH C.CardKind.parse G.GroupKind.entry_of C.CardKind.KIND G.GroupKind.BOOK_KIND (take n out.new) ≡ Ok (day_with founding.terminals founding.founder (T.GroupTable.groups book.now) founding.first calls.now)) }
    ensures every { ReadsBack C.CardKind.KIND G.GroupKind.BOOK_KIND C.CardKind.WIDTH C.CardKind.shape G.GroupKind.entry_bytes G.GroupKind.keeps C.CardKind.parse G.GroupKind.entry_of }
{
    let day = Summary {
        founding,
        groups: book.group_count(),
        calls: calls.len(),
    };
    let total = measured(&day, calls, out.len())?;
    put_day::<C, G, T>(&mut out[..total], &day, book, calls);
    Ok(total)
}
