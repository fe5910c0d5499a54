// Messages between terminals.
use parts::charts::Chart;
use parts::counts::{PhaseNumber, Terminal};
use parts::sets::TerminalSet;
use parts::stamps::Stamp;

// All that a terminal holds, told to another.
#[derive(Clone, Copy)]
pub struct News<C> {
    pub known: TerminalSet,
    pub card: C,
    pub stamp: Stamp,
    pub chart: Chart,
    // The sender's phase number.
    pub pns: PhaseNumber,
    // The largest phase number that the sender has heard from the receiver.
    pub pnr: PhaseNumber,
}

// What a message says. Not an `Option` of the news: `None` would not say that the sender knocks.
#[derive(Clone, Copy)]
pub enum Body<C> {
    // The sender asks to be taken in.
    Knock,
    News(News<C>),
}

// A message of the pool.
#[derive(Clone, Copy)]
pub struct Message<C> {
    pub from: Terminal,
    pub to: Terminal,
    pub body: Body<C>,
}
