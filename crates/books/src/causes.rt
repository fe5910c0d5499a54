// What is wrong with a file or an entry.
ghost use Rattle.std.specs.Prelude.{◌≡◌};
ghost use Rattle.books.specs.Causes.{cause_number};

// Each cause with its number.
#[derive(Clone, Copy, PartialEq, Eq)]
pub enum Cause {
    Size = 21,
    Kind = 22,
    Limit = 23,
    Offset = 24,
    BadEntry = 25,
    BadCard = 26,
    BadCall = 27,
    NoRoom = 28,
}

// The number of a cause. A refusal of a call has the like of it: a discriminant is read at the type of its own enum, so one impl cannot serve both.
impl From<Cause> for u8 {
    ghost from_gives = { λ cause number. number ≡ cause_number cause };

    fn from(cause: Cause) -> u8 {
        cause as u8
    }
}
