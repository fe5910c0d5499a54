// Stamps, which order the cards.
ghost use Rattle.std.specs.Prelude.{◌≡◌};
ghost use Rattle.parts.specs.Stamps.{below, next_stamp};

use crate::counts::{LAST_NUMBER, Terminal};

// A stamp (the field's tag): the larger count wins, and of equal counts the larger terminal.
#[derive(Clone, Copy, PartialEq, Eq, PartialOrd, Ord)]
pub struct Stamp {
    pub count: u32,
    pub terminal: Terminal,
}

impl Stamp {
    // Whether the other stamp is larger: the derived order, whose contract here says what it comes to.
    pub fn is_below(self, other: Stamp) -> bool
        ensures { result ≡ below self other }
    {
        self < other
    }

    // The terminal's stamp with the next count; after the last count there is none.
    pub fn next(self, terminal: Terminal) -> Option<Stamp>
        ensures { result ≡ next_stamp self terminal }
    {
        if self.count < LAST_NUMBER {
            Some(Stamp {
                count: self.count + 1,
                terminal,
            })
        } else {
            None
        }
    }
}
