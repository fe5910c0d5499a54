// What a kind of group says of its entry in a file, and a book as a table of groups.
ghost use Rattle.std.specs.Prelude.{◌≡◌, ℕ, ◌<◌, ◌≤◌, ◌&&◌, Bool, true, List, [], length, Some, Option};
ghost use Rattle.std.specs.List.{AllByRecursion, slice_get};
ghost use Rattle.callfile.specs.Limits.{entry_width};
ghost use Rattle.books.specs.Books.{table_groups};
ghost use Rattle.books.specs.Tables.{add_read};
ghost use Rattle.callfile.specs.Tables.{entry_written, ruled};

use books::causes::Cause;
use books::readers::EntryReader;
use books::rules::GroupRule;
use cards::WrongWidth;

// A kind of group (a kind of quorum system), as a book of that kind has it. It is no kind of card: a group has its bytes only if it
// keeps its rule, which `wide` and `round` ask first.
pub trait GroupKind: Copy {
    // The number in a file of the kind of book, and the same for the contracts.
    const BOOK_KIND: u8;

    ghost BOOK_KIND: { ℕ };

    // Whether the group has all its places and keeps the rule of its kind.
    ghost keeps: { Self → Bool };

    // The bytes of the group's entry.
    ghost entry_bytes: { Self → List ℕ };

    // The group that the bytes of an entry are read as, if they are one.
    ghost entry_of: { List ℕ → Option Self };

    // The group that the bytes stand for, if it keeps its rule.
    fn read_group(bytes: &[u8]) -> Option<Self>
        ensures { result ≡ entry_of bytes.now };

    // Writes the group over the whole of `out`, if it is as long as an entry.
    fn write_group(&self, out: &mut [u8]) -> Result<(), WrongWidth>
        ensures { (result, out.new) ≡ entry_written entry_bytes self.now out.old };

    // The entry of a group that keeps the rule is as wide as an entry is.
    ghost wide: { (g : Self) → keeps g ≡ true → length (entry_bytes g) ≡ entry_width };

    // What was written of such a group is read as the same group.
    ghost round: { (g : Self) → keeps g ≡ true → entry_of (entry_bytes g) ≡ Some g };

    // What was read is written as the same bytes.
    ghost back: { (xs : List ℕ) (g : Self) → AllByRecursion (λ x. x < 256) xs → entry_of xs ≡ Some g → entry_bytes g ≡ xs };

    // What is read keeps the rule.
    ghost kept: { (xs : List ℕ) (g : Self) → entry_of xs ≡ Some g → keeps g ≡ true };
}

// A kind of group of which a book has a table of its own: the table lends an entry to the reader, and asks for the rule itself.
pub trait TableGroup: GroupKind + GroupRule {
    // How an entry of the table is read from one in a file.
    type Reader: EntryReader<Self>;

    // What a file and a table ask of a group is the same: it has all its places, and it keeps the rule of its kind.
    ghost by_rule: { (g : Self) → Self.keeps g ≡ (Self.full g && Self.sound g) };

    // Bytes are read as the group that they stand for, if it keeps its rule.
    ghost by_form: { (xs : List ℕ) → Self.entry_of xs ≡ ruled Self.sound (Self.Reader.form_of xs) };
}

// The group that the bytes stand for, if it keeps its rule.
pub(crate) fn read_ruled<G: GroupRule, R: EntryReader<G>>(bytes: &[u8]) -> Option<G>
    ensures { result ≡ ruled G.sound (R.EntryReader.form_of bytes.now) }
{
    let mut group = G::blank();
    R::read_into(bytes, &mut group).ok()?;
    Some(group).filter(|group| group.keeps_rule())
}

// A book that is filled group by group.
pub trait GroupTable<G: GroupKind> {
    // The groups in the order in which they were added.
    ghost groups: { Self → List G };

    // How many groups there are.
    fn group_count(&self) -> usize
        ensures { result ≡ length (groups self.now) };

    // The group at an index, if there is one.
    fn group_at(&self, i: usize) -> Option<G>
        ensures { result ≡ slice_get (groups self.now) i };

    // Takes all groups out.
    fn clear(&mut self)
        ensures { groups self.new ≡ [] };

    // The group that the bytes stand for becomes the next one, if they are a group and there is room.
    fn append_entry(&mut self, bytes: &[u8]) -> Result<(), Cause>
        ensures { (result, groups self.new) ≡ add_read G.GroupKind.keeps (G.GroupKind.entry_of bytes.now) (groups self.old) };

    // Every group keeps the rule of its kind.
    ghost ruled: { (t : Self) → AllByRecursion (λ g. G.GroupKind.keeps g ≡ true) (groups t) };

    // There is an end to the table.
    ghost few: { (t : Self) → length (groups t) ≤ table_groups };
}
