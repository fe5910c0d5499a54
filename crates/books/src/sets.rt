// Groups of listed sets.
ghost use Rattle.std.specs.Prelude.{◌≡◌, length, nat_lt};
ghost use Rattle.std.specs.List.{list_any, list_all};
ghost use Rattle.parts.specs.Sets.{within};
ghost use Rattle.books.specs.Sets.{there, family, share, family_within, families_meet, sound};
ghost use Rattle.books.specs.Rules.{sets_rule};
ghost use Rattle.books.specs.Listed.{found, given, meet, some, reads-inside, writes-inside};

use crate::rules::GroupRule;
use crate::table::Table;
use parts::sets::TerminalSet;

// The read sets that a group lists at most, and the write sets.
pub const SETS: usize = 4;

// A group of listed sets (an explicit quorum system): its members, its read sets and its write sets.
// A slot with the empty set lists none.
#[derive(Clone, Copy)]
pub struct SetsGroup {
    pub members: TerminalSet,
    pub reads: [TerminalSet; SETS],
    pub writes: [TerminalSet; SETS],
}

// A book of groups of listed sets.
pub type SetsBook = Table<SetsGroup>;

impl SetsGroup {
    // Whether the group keeps its rule.
    pub fn is_sound(&self) -> bool
        ensures { result ≡ sound self.now }
    {
        lie_within(&self.reads, self.members)
            && lie_within(&self.writes, self.members)
            && families_meet(&self.reads, &self.writes)
    }
}

// Whether the slot lists a set.
fn is_there(set: TerminalSet) -> bool
    ensures { result ≡ there set }
{
    set != TerminalSet::new()
}

// Whether the sets share a terminal. By bits: only here is it asked what two sets have in common.
fn meet(p: TerminalSet, q: TerminalSet) -> bool
    ensures { result ≡ share p q }
{
    p.bits() & q.bits() != 0
}

// Whether no set that the slots list has a terminal beyond the members. This chain and the two below differ in their test alone; a function that
// takes the test would need a longer contract than the three.
fn all_within(slots: &[TerminalSet], members: TerminalSet) -> bool
    ensures { result ≡ list_all (λ q. within q members) (family slots.now) }
{
    slots
        .iter()
        .filter(|set| is_there(**set))
        .all(|set| set.is_within(members))
}

// Whether the slots list a set at all.
fn list_some(slots: &[TerminalSet]) -> bool
    ensures { result ≡ nat_lt 0 (length (family slots.now)) }
{
    slots.iter().any(|set| is_there(*set))
}

// Whether the slots list a set, and none that has a terminal beyond the members.
fn lie_within(slots: &[TerminalSet], members: TerminalSet) -> bool
    ensures { result ≡ family_within members (family slots.now) }
{
    list_some(slots) && all_within(slots, members)
}

// Whether the set shares a terminal with each one that the slots list.
fn meets_each(set: TerminalSet, slots: &[TerminalSet]) -> bool
    ensures { result ≡ list_all (λ q. share set q) (family slots.now) }
{
    slots
        .iter()
        .filter(|other| is_there(**other))
        .all(|other| meet(set, *other))
}

// Whether each set of the first slots shares a terminal with each one of the second.
fn families_meet(reads: &[TerminalSet], writes: &[TerminalSet]) -> bool
    ensures { result ≡ families_meet (family reads.now) (family writes.now) }
{
    reads
        .iter()
        .filter(|set| is_there(**set))
        .all(|set| meets_each(*set, writes))
}

// Whether one of the sets that the slots list lies within the given one.
fn hold_one(slots: &[TerminalSet], set: TerminalSet) -> bool
    ensures { result ≡ list_any (λ q. within q set) (family slots.now) }
{
    slots
        .iter()
        .filter(|q| is_there(**q))
        .any(|q| q.is_within(set))
}

impl GroupRule for SetsGroup {
    ghost sound = { sets_rule.sound };

    ghost full = { sets_rule.full };

    ghost blank = { sets_rule.blank };

    ghost members_of = { sets_rule.members_of };

    ghost read_set = { sets_rule.read_set };

    ghost write_set = { sets_rule.write_set };

    ghost reads = { sets_rule.reads };

    ghost writes = { sets_rule.writes };

    ghost reads_found = { found (λ g. g.reads) };

    ghost reads_given = { given (λ g. g.reads) };

    ghost writes_found = { found (λ g. g.writes) };

    ghost writes_given = { given (λ g. g.writes) };

    ghost meet = { meet };

    ghost some = { some };

    ghost reads_inside = { reads-inside };

    ghost writes_inside = { writes-inside };

    fn blank() -> SetsGroup {
        SetsGroup {
            members: TerminalSet::new(),
            reads: [TerminalSet::new(); SETS],
            writes: [TerminalSet::new(); SETS],
        }
    }

    fn keeps_rule(self) -> bool {
        self.is_sound()
    }

    fn members(&self) -> TerminalSet {
        self.members
    }

    fn has_read_set(&self, set: TerminalSet) -> bool {
        hold_one(&self.reads, set)
    }

    fn has_write_set(&self, set: TerminalSet) -> bool {
        hold_one(&self.writes, set)
    }
}
