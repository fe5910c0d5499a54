// What a kind of group is to a book.
ghost use Rattle.std.specs.Prelude.{◌≡◌, Bool, true};
ghost use Rattle.parts.specs.declared.sets.TerminalSet.{TerminalSet};
ghost use Rattle.parts.specs.Sets.{Within, Meet};

use parts::sets::TerminalSet;

// A kind of group (a kind of quorum system): its rule, and the members, read sets and write sets of each group.
pub trait GroupRule: Copy {
    // Whether the group keeps the rule of its kind.
    ghost sound: { Self → Bool };

    // Whether the arrays of the group have all their places, which is so of every group in memory.
    ghost full: { Self → Bool };

    // An entry of a table that no group has yet.
    ghost blank: { Self };

    // The members of the group.
    ghost members_of: { Self → TerminalSet };

    // Whether the set is one of the group's read sets.
    ghost read_set: { Self → TerminalSet → Bool };

    // Whether the set is one of the group's write sets.
    ghost write_set: { Self → TerminalSet → Bool };

    // Whether the set contains one of the group's read sets.
    ghost reads: { Self → TerminalSet → Bool };

    // Whether the set contains one of the group's write sets.
    ghost writes: { Self → TerminalSet → Bool };

    // An entry of a table that no group has yet.
    fn blank() -> Self
        ensures { result ≡ blank };

    // Whether the group keeps its rule. In any case its arrays have all their places.
    // It takes the group by value, since the check does not know this of one that another function wrote behind a reference.
    fn keeps_rule(self) -> bool
        ensures value { result ≡ sound self }
        ensures places { full self ≡ true };

    // The members of the group.
    fn members(&self) -> TerminalSet
        ensures { result ≡ members_of self.now };

    // Whether a set of terminals contains a read set of the group.
    fn has_read_set(&self, set: TerminalSet) -> bool
        ensures { result ≡ reads self.now set };

    // Whether a set of terminals contains a write set of the group.
    fn has_write_set(&self, set: TerminalSet) -> bool
        ensures { result ≡ writes self.now set };

    // Where a group says yes, there is such a set within the given one; and where there is, it says yes.
    ghost reads_found: { (g : Self) (s : TerminalSet) → reads g s ≡ true → (q : TerminalSet) × (read_set g q ≡ true) × Within q s };

    ghost reads_given: { (g : Self) (q s : TerminalSet) → read_set g q ≡ true → Within q s → reads g s ≡ true };

    ghost writes_found: { (g : Self) (s : TerminalSet) → writes g s ≡ true → (q : TerminalSet) × (write_set g q ≡ true) × Within q s };

    ghost writes_given: { (g : Self) (q s : TerminalSet) → write_set g q ≡ true → Within q s → writes g s ≡ true };

    // In a group that keeps its rule, every read set and every write set share a terminal.
    ghost meet: { (g : Self) → sound g ≡ true → (p q : TerminalSet) → read_set g p ≡ true → write_set g q ≡ true → Meet p q };

    // Neither family of such a group is empty, and each of its sets lies within the members.
    ghost some: { (g : Self) → sound g ≡ true → ((q : TerminalSet) × (read_set g q ≡ true)) × ((q : TerminalSet) × (write_set g q ≡ true)) };

    ghost reads_inside: { (g : Self) → sound g ≡ true → (q : TerminalSet) → read_set g q ≡ true → Within q (members_of g) };

    ghost writes_inside: { (g : Self) → sound g ≡ true → (q : TerminalSet) → write_set g q ≡ true → Within q (members_of g) };
}
