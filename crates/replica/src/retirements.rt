// The retirement of a terminal: the handing over of a place to the next one (garbage collection of a configuration).
use parts::counts::{PhaseNumber, Place};
use parts::sets::TerminalSet;

// A retirement: the place, the number of its phase, and the terminals heard in it. Both phases hold the same, and stay two cases, each with its
// name, as the phases of an operation do.
#[derive(Clone, Copy)]
pub enum Retirement {
    // None is under way.
    Free,
    // It asks the group at the place for what it holds.
    Query {
        place: Place,
        number: PhaseNumber,
        heard: TerminalSet,
    },
    // It tells the group at the next place.
    Prop {
        place: Place,
        number: PhaseNumber,
        heard: TerminalSet,
    },
}

// A call that moves a retirement on.
#[derive(Clone, Copy)]
pub enum Retiring {
    Begin(Place),
    Settle,
    Confirm,
    Close,
}
