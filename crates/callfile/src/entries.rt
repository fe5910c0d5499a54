// The groups of a file.
ghost use Rattle.std.specs.Prelude.{◌≡◌, ◌+◌, ◌/◌, ◌≤◌, length};
ghost use Rattle.callfile.specs.Limits.{head_length, entry_width, longest};
ghost use Rattle.callfile.specs.Faults.{ok_unless, fault_in};
ghost use Rattle.callfile.specs.Reading.{groups_of};

use crate::faults::{Fault, Part};
use crate::groups::GroupKind;
use crate::limits::{ENTRY, HEADER};
use books::causes::Cause;

// The first entry that is no group; the entries stand behind the header.
#[tactic(auto, using(crate::proofs::EntryWalks::chunk_at, crate::proofs::EntryWalks::entries_again, crate::proofs::EntryWalks::entries_wrong, crate::proofs::EntryWalks::entries_end))]
pub(crate) fn check_entries<G: GroupKind>(entries: &[u8]) -> Result<(), Fault>
    requires { head_length + length entries.now ≤ longest }
    ensures { result ≡ ok_unless (fault_in (groups_of G.GroupKind.entry_of head_length (length entries.now / entry_width) entries.now)) }
{
    let (rows, _) = entries.as_chunks::<ENTRY>();
    for (i, entry) in rows.iter().enumerate() {
        if G::read_group(entry).is_none() {
            return Err(Fault::new(Cause::BadEntry, Part::Entry, HEADER + ENTRY * i));
        }
    }
    Ok(())
}
