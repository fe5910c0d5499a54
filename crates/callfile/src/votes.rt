// Groups of votes in a file.
ghost use Rattle.std.specs.Prelude.{◌≡◌, [], ◌∷◌, length};
ghost use Rattle.std.proofs.Common.{rules};
ghost use Rattle.cards.specs.Words.{words_bytes};
ghost use Rattle.callfile.specs.Votes.{votes_kind, votes_kept, votes_bytes, votes_in, votes_form, votes_read, votes_of};
ghost use Rattle.callfile.specs.EntryForms.{ruled_form};
ghost use Rattle.books.specs.Votes.{sound};
ghost use Rattle.callfile.specs.Limits.{entry_width};
ghost use Rattle.callfile.specs.VotesEntries.{votes-wide, votes-round, votes-back};

use crate::groups::{GroupKind, TableGroup, read_ruled};
use crate::limits::ENTRY;
use books::causes::Cause;
use books::readers::EntryReader;
use books::votes::VotesGroup;
use cards::WrongWidth;
use cards::words::{put_words, word_at};
use parts::counts::TERMINALS;

// The byte of an entry where the threshold of reads stands, and that of writes.
const R_AT: usize = 16;

const W_AT: usize = 18;

// The reader of the entries of votes in a file.
pub struct VotesEntry;

impl EntryReader<VotesGroup> for VotesEntry {
    ghost form_of = { votes_read };

    fn read_into(bytes: &[u8], entry: &mut VotesGroup) -> Result<(), Cause> {
        if bytes.len() != ENTRY {
            return Err(Cause::BadEntry);
        }
        *entry = VotesGroup {
            votes: *bytes.first_chunk().ok_or(Cause::BadEntry)?,
            r: word_at(bytes, R_AT),
            w: word_at(bytes, W_AT),
        };
        Ok(())
    }
}

impl GroupKind for VotesGroup {
    const BOOK_KIND: u8 = 1;

    ghost BOOK_KIND = { votes_kind };

    ghost keeps = { votes_kept };

    ghost entry_bytes = { votes_bytes };

    ghost entry_of = { votes_of };

    ghost wide = { λ g k. votes-wide g k };

    ghost round = { λ g k. votes-round g k };

    ghost back = { λ xs g h e. votes-back xs g h e };

    ghost kept = { Prim.search rules };

    #[tactic(auto, using(crate::specs::EntryForms::ruled_form))]
    fn read_group(bytes: &[u8]) -> Option<VotesGroup> {
        read_ruled::<VotesGroup, VotesEntry>(bytes)
    }

    fn write_group(&self, out: &mut [u8]) -> Result<(), WrongWidth> {
        if out.len() != ENTRY {
            return Err(WrongWidth);
        }
        let (votes, thresholds) = out.split_at_mut(R_AT);
        votes.copy_from_slice(&self.votes);
        put_words(thresholds, &[self.r, self.w])
    }
}

impl TableGroup for VotesGroup {
    type Reader = VotesEntry;

    ghost by_rule = { Prim.search rules };

    ghost by_form = { λ xs. ruled_form sound (votes_in xs) (votes_form xs) };
}
