// Sets of terminals.
ghost use Rattle.std.specs.Prelude.{◌≡◌, true};
ghost use Rattle.parts.specs.Sets.{has, of_bits, nobody, union, with_one, within, Within};

use crate::counts::{TERMINALS, Terminal};

// A set of terminals: bit t is terminal t.
#[derive(Clone, Copy, PartialEq, Eq)]
pub struct TerminalSet {
    bits: u16,
}

impl TerminalSet {
    // The set without a terminal.
    pub fn new() -> TerminalSet
        ensures { result ≡ nobody }
    {
        TerminalSet { bits: 0 }
    }

    // The set with these bits. Named as `f32::from_bits` is: a `From<u16>` would not say how the number is read.
    pub fn from_bits(bits: u16) -> TerminalSet
        ensures { result ≡ of_bits bits }
    {
        TerminalSet { bits }
    }

    // The bits of the set.
    pub fn bits(self) -> u16
        ensures { result ≡ self.bits }
    {
        self.bits
    }

    // Whether terminal t is in the set.
    pub fn contains(self, t: Terminal) -> bool
        ensures { result ≡ has self t }
    {
        t.0 < TERMINALS as u32 && (self.bits >> t.0) % 2 == 1
    }

    // The set and terminal t.
    pub fn with(self, t: Terminal) -> TerminalSet
        ensures { result ≡ with_one self t }
    {
        if t.0 < TERMINALS as u32 {
            TerminalSet {
                bits: self.bits | (1 << t.0),
            }
        } else {
            self
        }
    }

    // All of this set and all of another.
    pub fn union(self, other: TerminalSet) -> TerminalSet
        ensures { result ≡ union self other }
    {
        TerminalSet {
            bits: self.bits | other.bits,
        }
    }

    // Whether each terminal of this set is in the other.
    pub fn is_within(self, other: TerminalSet) -> bool
        ensures value { result ≡ within self other }
        ensures means { (result ≡ true → Within self other) × (Within self other → result ≡ true) }
    {
        self.union(other) == other
    }
}
