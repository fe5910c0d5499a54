// Groups of listed sets in a file.
ghost use Rattle.std.specs.Prelude.{◌≡◌, ◌+◌, ◌*◌, ◌≤◌, [], ◌∷◌, length};
ghost use Rattle.std.proofs.Common.{rules};
ghost use Rattle.cards.specs.Words.{words_bytes};
ghost use Rattle.books.specs.Books.{most_sets};
ghost use Rattle.books.specs.Sets.{sound};
ghost use Rattle.callfile.specs.EntryForms.{ruled_form};
ghost use Rattle.callfile.specs.Limits.{entry_width};
ghost use Rattle.callfile.specs.Sets.{sets_kind, set_width, sets_kept, bits_of, sets_bytes, slots_from, sets_in, sets_form, sets_read, sets_of};
ghost use Rattle.callfile.specs.SetsEntries.{sets-wide, sets-round, sets-back, sets-kept};

use crate::groups::{GroupKind, TableGroup, read_ruled};
use crate::limits::ENTRY;
use books::causes::Cause;
use books::readers::EntryReader;
use books::sets::{SETS, SetsGroup};
use cards::WrongWidth;
use cards::words::{put_words, word_at};
use parts::sets::TerminalSet;
use std::array::from_fn;

// How many bytes a set has.
const SET: usize = 2;

// The byte of an entry where the members stand, the first read set, the first write set, and the two bytes that are 0.
const MEMBERS_AT: usize = 0;

const READS_AT: usize = 2;

const WRITES_AT: usize = 10;

const ZEROS_AT: usize = 18;

// The sets of which the first stands at `byte`.
fn slots_from(bytes: &[u8], byte: usize) -> [TerminalSet; SETS]
    requires { byte + set_width * most_sets ≤ entry_width }
    ensures { result ≡ slots_from most_sets byte bytes.now }
{
    from_fn(|i| TerminalSet::from_bits(word_at(bytes, byte + SET * i)))
}

// The bits of sets.
fn bits_of(sets: [TerminalSet; SETS]) -> [u16; SETS]
    ensures { result ≡ bits_of sets }
{
    sets.map(|set| set.bits())
}

// The reader of the entries of listed sets in a file.
pub struct SetsEntry;

impl EntryReader<SetsGroup> for SetsEntry {
    ghost form_of = { sets_read };

    fn read_into(bytes: &[u8], entry: &mut SetsGroup) -> Result<(), Cause> {
        if bytes.len() != ENTRY || word_at(bytes, ZEROS_AT) != 0 {
            return Err(Cause::BadEntry);
        }
        *entry = SetsGroup {
            members: TerminalSet::from_bits(word_at(bytes, MEMBERS_AT)),
            reads: slots_from(bytes, READS_AT),
            writes: slots_from(bytes, WRITES_AT),
        };
        Ok(())
    }
}

impl GroupKind for SetsGroup {
    const BOOK_KIND: u8 = 2;

    ghost BOOK_KIND = { sets_kind };

    ghost keeps = { sets_kept };

    ghost entry_bytes = { sets_bytes };

    ghost entry_of = { sets_of };

    ghost wide = { λ g k. sets-wide g k };

    ghost round = { λ g k. sets-round g k };

    ghost back = { λ xs g h e. sets-back xs g h e };

    ghost kept = { λ xs g e. sets-kept xs g e };

    #[tactic(auto, using(crate::specs::EntryForms::ruled_form))]
    fn read_group(bytes: &[u8]) -> Option<SetsGroup> {
        read_ruled::<SetsGroup, SetsEntry>(bytes)
    }

    #[tactic(auto, using(cards::proofs::Puts::length_words_bytes))]
    fn write_group(&self, out: &mut [u8]) -> Result<(), WrongWidth> {
        if out.len() != ENTRY {
            return Err(WrongWidth);
        }
        let (members, behind) = out.split_at_mut(READS_AT);
        let (reads, behind) = behind.split_at_mut(WRITES_AT - READS_AT);
        let (writes, zeros) = behind.split_at_mut(ZEROS_AT - WRITES_AT);
        put_words(members, &[self.members.bits()]).unwrap();
        put_words(reads, &bits_of(self.reads)).unwrap();
        put_words(writes, &bits_of(self.writes)).unwrap();
        put_words(zeros, &[0])
    }
}

impl TableGroup for SetsGroup {
    type Reader = SetsEntry;

    ghost by_rule = { Prim.search rules };

    ghost by_form = { λ xs. ruled_form sound (sets_in xs) (sets_form xs) };
}
