// The four sorts of count, each a type of its own so that none is taken for another, and the limits.
// Counts and the machine's numbers become one another by `as`, as in `.0 as usize` or `TERMINALS as u32`: Rust has no `From` for these, and the
// check shows that none loses anything.
ghost use Rattle.std.specs.Prelude.{◌≡◌};
ghost use Rattle.parts.specs.Numbers.{next_number};

// A place of a chart: the index of a configuration in the order in which they follow one another.
#[derive(Clone, Copy, PartialEq, Eq, PartialOrd, Ord)]
pub struct Place(pub u32);

// A group of a book: the identifier of a quorum configuration.
#[derive(Clone, Copy, PartialEq, Eq, PartialOrd, Ord)]
pub struct Group(pub u32);

// A terminal: the identifier of a replica.
#[derive(Clone, Copy, PartialEq, Eq, PartialOrd, Ord)]
pub struct Terminal(pub u32);

// A phase number: which of its terminal's phases a message belongs to.
#[derive(Clone, Copy, PartialEq, Eq, PartialOrd, Ord)]
pub struct PhaseNumber(pub u32);

impl PhaseNumber {
    // The number after this one; after the last there is none.
    pub fn next(self) -> Option<PhaseNumber>
        ensures { result ≡ next_number self }
    {
        if self.0 < LAST_NUMBER {
            Some(PhaseNumber(self.0 + 1))
        } else {
            None
        }
    }
}

// The most terminals that a house has.
pub const TERMINALS: usize = 16;

// The places of a chart.
pub const PLACES: usize = 16;

// The messages that the pool holds at most.
pub const MESSAGES: usize = 64;

// Where phase numbers and the counts of stamps end.
pub const LAST_NUMBER: u32 = 999_999;
