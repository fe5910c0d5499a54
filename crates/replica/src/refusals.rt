// Why a call is declined.
ghost use Rattle.std.specs.Prelude.{◌≡◌};
ghost use Rattle.replica.specs.Refusals.{refusal_number};

// The cause for which a call is declined, with its number.
#[derive(Clone, Copy, PartialEq, Eq)]
pub enum Refusal {
    // A named terminal does not exist.
    NoTerminal = 1,
    // The acting terminal has crashed.
    Crashed = 2,
    // The acting terminal's status is wrong for the call.
    WrongStatus = 3,
    // An operation is under way; or a retirement, where one is to begin.
    UnderWay = 4,
    // The operation or the retirement is not in the phase that the call ends.
    WrongPhase = 5,
    // A set of a group is missing among the terminals heard.
    SetMissing = 6,
    // A knock names its own terminal, or the receiver of a message is not known.
    WrongReceiver = 7,
    // The pool is full.
    PoolFull = 8,
    // There is no such message.
    NoMessage = 9,
    // The phase number is at its end.
    NumbersEnd = 10,
    // The count of the stamp is at its end.
    CountsEnd = 11,
    // The book does not have the group.
    NotInBook = 12,
    // The group is already listed.
    AlreadyListed = 13,
    // The list of places is full.
    ListFull = 14,
    // A member of the group was never active.
    NeverActive = 15,
    // The place is not one that the call may name.
    WrongPlace = 16,
    // The place is already retired.
    AlreadyRetired = 17,
    // The tables have not the lengths that the house has; at the opening also: the number of terminals is 0 or past the limit.
    WrongTables = 18,
    // The founder is not one of the terminals.
    NoFounder = 19,
    // The members of group 0 are not the founder alone.
    NotFounderAlone = 20,
}

// The number of the cause; the causes of faults in a file have the like of it, and one impl cannot serve both enums.
impl From<Refusal> for u8 {
    ghost from_gives = { λ refusal number. number ≡ refusal_number refusal };

    fn from(refusal: Refusal) -> u8 {
        refusal as u8
    }
}
