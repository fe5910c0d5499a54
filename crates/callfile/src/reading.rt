// Reading a call file without writing anything.
ghost use Rattle.std.specs.Prelude.{◌≡◌};
ghost use Rattle.callfile.specs.Days.{summed};
ghost use Rattle.callfile.specs.Laws.{WritesBack};
ghost use Rattle.callfile.specs.Reading.{head_summary, day_of};

use crate::calls::{Calls, check_calls};
use crate::entries::check_entries;
use crate::faults::{Fault, Part};
use crate::groups::GroupKind;
use crate::header::check_head;
use crate::limits::{
    CALLS_AT, CALLS_OFFSET_AT, CARD_OFFSET_AT, FOUNDER_AT, GROUPS_AT, HEADER, TERMINALS_AT,
};
use crate::summary::Summary;
use books::causes::Cause;
use cards::CardKind;
use cards::words::word_at;
use parts::counts::Terminal;
use parts::foundings::Founding;

// What the header says in few words, with the first card.
fn head_summary<C: Copy>(file: &[u8], first: C) -> Summary<C>
    ensures { result ≡ head_summary file.now first }
{
    Summary {
        founding: Founding {
            terminals: u32::from(word_at(file, TERMINALS_AT)),
            founder: Terminal(u32::from(word_at(file, FOUNDER_AT))),
            first,
        },
        groups: usize::from(word_at(file, GROUPS_AT)),
        calls: usize::from(word_at(file, CALLS_AT)),
    }
}

// The day in few words, or the first fault.
fn verdict<C: CardKind, G: GroupKind>(file: &[u8]) -> Result<Summary<C>, Fault>
    ensures { result ≡ summed (day_of C.CardKind.WIDTH C.CardKind.parse G.GroupKind.entry_of C.CardKind.KIND G.GroupKind.BOOK_KIND file.now) }
{
    check_head::<C, G>(file)?;
    let card_at = usize::from(word_at(file, CARD_OFFSET_AT));
    let calls_at = usize::from(word_at(file, CALLS_OFFSET_AT));
    check_entries::<G>(&file[HEADER..card_at])?;
    let wrong = Fault::new(Cause::BadCard, Part::Card, card_at);
    let first = C::read(&file[card_at..calls_at]).ok_or(wrong)?;
    let day = head_summary(file, first);
    check_calls::<C>(Calls::new(file, calls_at), day.calls)?;
    Ok(day)
}

// Reads the whole file and writes nothing: the day in few words, or the first fault.
// A file that is read as a day is the file of that day, byte for byte.
pub fn check<C: CardKind, G: GroupKind>(file: &[u8]) -> Result<Summary<C>, Fault>
    ensures answer { result ≡ summed (day_of C.CardKind.WIDTH C.CardKind.parse G.GroupKind.entry_of C.CardKind.KIND G.GroupKind.BOOK_KIND file.now) }
    ensures same { WritesBack C.CardKind.KIND G.GroupKind.BOOK_KIND C.CardKind.WIDTH C.CardKind.shape G.GroupKind.entry_bytes G.GroupKind.keeps C.CardKind.parse G.GroupKind.entry_of file.now }
{
    verdict::<C, G>(file)
}
