// The operation of a terminal: a read or a write, phase by phase.
use parts::charts::Chart;
use parts::counts::PhaseNumber;
use parts::sets::TerminalSet;
use parts::stamps::Stamp;

// What an operation is for; a write has the card that it writes. Not an `Option` of the card: `None` would not say
// that a read is meant.
#[derive(Clone, Copy)]
pub enum Kind<C> {
    Read,
    Write(C),
}

// A phase under way: its number, the chart that it has to cover, and the terminals heard in it.
#[derive(Clone, Copy)]
pub struct Phase {
    pub number: PhaseNumber,
    pub chart: Chart,
    pub heard: TerminalSet,
}

// An operation; the card and the stamp that it keeps are those of its settling.
#[derive(Clone, Copy)]
pub enum Operation<C> {
    // None is under way.
    Free,
    // It asks for the latest card (the query phase).
    Query(Kind<C>, Phase),
    // It spreads the card that it keeps (the propagation phase).
    Prop((C, Stamp), Phase),
    // It waits to be collected.
    Done((C, Stamp)),
}

// A call that moves an operation on.
#[derive(Clone, Copy)]
pub enum Move<C> {
    Begin(Kind<C>),
    Settle,
    Confirm,
    Collect,
}
