// The header, whose fields have to fit one another.
ghost use Rattle.std.specs.Prelude.{◌≡◌, ◌≤◌, length};
ghost use Rattle.callfile.specs.Limits.{head_length};
ghost use Rattle.callfile.specs.Faults.{ok_unless};
ghost use Rattle.callfile.specs.Reading.{size_fault, kind_fault, limit_fault, offset_fault, head_fault};

use crate::faults::Fault;
use crate::groups::GroupKind;
use crate::limits::{
    BOOK_KIND_AT, CALLS_OFFSET_AT, CARD_KIND_AT, CARD_OFFSET_AT, ENTRY, FOUNDER_AT, GROUPS_AT,
    GROUPS_OFFSET_AT, HEADER, LONGEST, TERMINALS_AT,
};
use books::causes::Cause;
use books::table::GROUPS;
use cards::CardKind;
use cards::words::word_at;
use parts::counts::TERMINALS;

// 21: the file is too short for a header, or too long.
pub(crate) fn check_size(file: &[u8]) -> Result<(), Fault>
    ensures { result ≡ ok_unless (size_fault file.now) }
{
    if file.len() < HEADER || LONGEST < file.len() {
        return Err(Fault::file(Cause::Size));
    }
    Ok(())
}

// 22: the file has another kind of card or of book.
fn check_kinds<C: CardKind, G: GroupKind>(file: &[u8]) -> Result<(), Fault>
    requires { head_length ≤ length file.now }
    ensures { result ≡ ok_unless (kind_fault C.CardKind.KIND G.GroupKind.BOOK_KIND file.now) }
{
    if file[CARD_KIND_AT] != C::KIND {
        return Err(Fault::field(Cause::Kind, CARD_KIND_AT));
    }
    if file[BOOK_KIND_AT] != G::BOOK_KIND {
        return Err(Fault::field(Cause::Kind, BOOK_KIND_AT));
    }
    Ok(())
}

// 23: terminals, founder or groups are beyond their limits.
pub(crate) fn check_limits(terminals: u32, founder: u32, groups: usize) -> Result<(), Fault>
    ensures { result ≡ ok_unless (limit_fault terminals founder groups) }
{
    if terminals == 0 || (TERMINALS as u32) < terminals {
        return Err(Fault::field(Cause::Limit, TERMINALS_AT));
    }
    if founder >= terminals {
        return Err(Fault::field(Cause::Limit, FOUNDER_AT));
    }
    if groups == 0 || GROUPS < groups {
        return Err(Fault::field(Cause::Limit, GROUPS_AT));
    }
    Ok(())
}

// 24: a part does not begin where the one before ends.
fn check_offsets<C: CardKind>(file: &[u8]) -> Result<(), Fault>
    ensures { result ≡ ok_unless (offset_fault C.CardKind.WIDTH file.now) }
{
    let card_at = HEADER + ENTRY * usize::from(word_at(file, GROUPS_AT));
    let calls_at = usize::from(word_at(file, CALLS_OFFSET_AT));
    if usize::from(word_at(file, GROUPS_OFFSET_AT)) != HEADER {
        return Err(Fault::field(Cause::Offset, GROUPS_OFFSET_AT));
    }
    if usize::from(word_at(file, CARD_OFFSET_AT)) != card_at {
        return Err(Fault::field(Cause::Offset, CARD_OFFSET_AT));
    }
    if calls_at != card_at + C::WIDTH || file.len() < calls_at {
        return Err(Fault::field(Cause::Offset, CALLS_OFFSET_AT));
    }
    Ok(())
}

// The first fault of the header.
pub(crate) fn check_head<C: CardKind, G: GroupKind>(file: &[u8]) -> Result<(), Fault>
    ensures { result ≡ ok_unless (head_fault C.CardKind.KIND G.GroupKind.BOOK_KIND C.CardKind.WIDTH file.now) }
{
    check_size(file)?;
    check_kinds::<C, G>(file)?;
    check_limits(
        u32::from(word_at(file, TERMINALS_AT)),
        u32::from(word_at(file, FOUNDER_AT)),
        usize::from(word_at(file, GROUPS_AT)),
    )?;
    check_offsets::<C>(file)
}
