// What a book of groups answers.
ghost use Rattle.std.specs.Prelude.{◌≡◌, ℕ, ◌<◌, ◌≤◌, Bool, true, false};
ghost use Rattle.parts.specs.declared.counts.Group.{Group};
ghost use Rattle.parts.specs.declared.sets.TerminalSet.{TerminalSet};
ghost use Rattle.parts.specs.Sets.{nobody, Within, Meet};
ghost use Rattle.books.specs.Books.{most_groups};

use parts::counts::Group;
use parts::sets::TerminalSet;

// The most groups that a book has.
pub const MOST_GROUPS: u32 = 999_999;

// A book of groups (a family of quorum systems): of each group its members, its read sets and its write sets.
// Answering changes nothing.
pub trait Book {
    // How many groups the book has, numbered from 0.
    ghost size: { Self → ℕ };

    // The members of a group.
    ghost members_of: { Self → Group → TerminalSet };

    // Whether the set is one of the group's read sets.
    ghost read_set: { Self → Group → TerminalSet → Bool };

    // Whether the set is one of the group's write sets.
    ghost write_set: { Self → Group → TerminalSet → Bool };

    // Whether the set contains one of the group's read sets.
    ghost reads: { Self → Group → TerminalSet → Bool };

    // Whether the set contains one of the group's write sets.
    ghost writes: { Self → Group → TerminalSet → Bool };

    // How many groups there are.
    fn count(&self) -> u32
        ensures { result ≡ size self.now };

    // The members of a group.
    fn members(&self, group: Group) -> TerminalSet
        ensures { result ≡ members_of self.now group };

    // Whether a set of terminals contains a read set of the group. This question and the next stay two: asked as one, with the
    // family as an argument, each impl would answer it by a match with these two arms.
    fn has_read_set(&self, group: Group, set: TerminalSet) -> bool
        ensures { result ≡ reads self.now group set };

    // Whether a set of terminals contains a write set of the group.
    fn has_write_set(&self, group: Group, set: TerminalSet) -> bool
        ensures { result ≡ writes self.now group set };

    // There is an end to the numbers of groups.
    ghost few: { (b : Self) → size b ≤ most_groups };

    // Where a book says yes, there is such a set within the given one; and where there is, it says yes.
    ghost reads_found: { (b : Self) (c : Group) (s : TerminalSet) → reads b c s ≡ true → (q : TerminalSet) × (read_set b c q ≡ true) × Within q s };

    ghost reads_given: { (b : Self) (c : Group) (q s : TerminalSet) → read_set b c q ≡ true → Within q s → reads b c s ≡ true };

    ghost writes_found: { (b : Self) (c : Group) (s : TerminalSet) → writes b c s ≡ true → (q : TerminalSet) × (write_set b c q ≡ true) × Within q s };

    ghost writes_given: { (b : Self) (c : Group) (q s : TerminalSet) → write_set b c q ≡ true → Within q s → writes b c s ≡ true };

    // First law: every read set and every write set of a group share a terminal.
    ghost first: { (b : Self) (c : Group) (p q : TerminalSet) → read_set b c p ≡ true → write_set b c q ≡ true → Meet p q };

    // Second law: neither family of a group is empty, and each of its sets lies within the members.
    ghost second: { (b : Self) (c : Group) → c.0 < size b → ((q : TerminalSet) × (read_set b c q ≡ true)) × ((q : TerminalSet) × (write_set b c q ≡ true)) };

    ghost reads_inside: { (b : Self) (c : Group) (q : TerminalSet) → read_set b c q ≡ true → Within q (members_of b c) };

    ghost writes_inside: { (b : Self) (c : Group) (q : TerminalSet) → write_set b c q ≡ true → Within q (members_of b c) };

    // A group that the book lacks has no members, and the answer is no.
    ghost lacking: { (b : Self) (c : Group) → size b ≤ c.0 → (members_of b c ≡ nobody) × ((s : TerminalSet) → (reads b c s ≡ false) × (writes b c s ≡ false)) };
}
