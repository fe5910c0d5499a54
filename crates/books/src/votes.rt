// Groups of votes.
ghost use Rattle.std.specs.Prelude.{◌≡◌};
ghost use Rattle.books.specs.Votes.{total, sound, weight, voters};
ghost use Rattle.books.specs.Rules.{votes_rule};
ghost use Rattle.books.specs.Families.{found, given, meet, some, inside};

use crate::rules::GroupRule;
use crate::table::Table;
use parts::counts::{TERMINALS, Terminal};
use parts::sets::TerminalSet;

// A group of votes (a weighted quorum system): terminal t has votes[t] votes, a read set needs r votes and a write set w.
#[derive(Clone, Copy)]
pub struct VotesGroup {
    pub votes: [u8; TERMINALS],
    pub r: u16,
    pub w: u16,
}

// A book of groups of votes.
pub type VotesBook = Table<VotesGroup>;

impl VotesGroup {
    // All votes together.
    pub fn total(&self) -> u32
        ensures { result ≡ total self.now.votes }
    {
        self.votes.iter().map(|votes| u32::from(*votes)).sum()
    }

    // Whether the group keeps its rule.
    pub fn is_sound(&self) -> bool
        ensures { result ≡ sound self.now }
    {
        let all = self.total();
        let r = u32::from(self.r);
        let w = u32::from(self.w);
        1 <= r && 1 <= w && r <= all && w <= all && all < r + w
    }

    // The votes of the terminals in the set.
    fn weight(&self, set: TerminalSet) -> u32
        ensures { result ≡ weight self.now.votes set }
    {
        // A loop: a chain of `enumerate`, `filter` and `sum` was tried, and its proof did not close.
        let mut sum = 0;
        for (t, votes) in self.votes.iter().enumerate() {
            if set.contains(Terminal(t as u32)) {
                sum += u32::from(*votes);
            }
        }
        sum
    }

    // The terminals with a vote.
    fn voters(&self) -> TerminalSet
        ensures { result ≡ voters self.now.votes }
    {
        // A loop: with `fold` the closure would have to carry the contract of the walk.
        let mut set = TerminalSet::new();
        for (t, votes) in self.votes.iter().enumerate() {
            if *votes > 0 {
                set = set.with(Terminal(t as u32));
            }
        }
        set
    }
}

impl GroupRule for VotesGroup {
    ghost sound = { votes_rule.sound };

    ghost full = { votes_rule.full };

    ghost blank = { votes_rule.blank };

    ghost members_of = { votes_rule.members_of };

    ghost read_set = { votes_rule.read_set };

    ghost write_set = { votes_rule.write_set };

    ghost reads = { votes_rule.reads };

    ghost writes = { votes_rule.writes };

    ghost reads_found = { found (λ g. g.r) };

    ghost reads_given = { given (λ g. g.r) };

    ghost writes_found = { found (λ g. g.w) };

    ghost writes_given = { given (λ g. g.w) };

    ghost meet = { meet };

    ghost some = { some };

    ghost reads_inside = { λ g _ q. inside (λ g. g.r) g q };

    ghost writes_inside = { λ g _ q. inside (λ g. g.w) g q };

    fn blank() -> VotesGroup {
        VotesGroup {
            votes: [0; TERMINALS],
            r: 0,
            w: 0,
        }
    }

    fn keeps_rule(self) -> bool {
        self.is_sound()
    }

    fn members(&self) -> TerminalSet {
        self.voters()
    }

    fn has_read_set(&self, set: TerminalSet) -> bool {
        u32::from(self.r) <= self.weight(set)
    }

    fn has_write_set(&self, set: TerminalSet) -> bool {
        u32::from(self.w) <= self.weight(set)
    }
}
