// What one terminal holds.
ghost use Rattle.std.specs.Prelude.{◌≡◌};
ghost use Rattle.replica.specs.Replicas.{fresh, entered, news_for, after_crash};

use crate::messages::News;
use crate::numbers::number_from;
use crate::operations::Operation;
use crate::retirements::Retirement;
use parts::charts::Chart;
use parts::counts::{PhaseNumber, TERMINALS, Terminal};
use parts::sets::TerminalSet;
use parts::stamps::Stamp;

// How far a terminal has come.
#[derive(Clone, Copy)]
pub enum Status {
    Idle,
    Joining,
    Active,
}

// A terminal (the field's replica): a row of the caller's table.
#[derive(Clone, Copy)]
pub struct Replica<C> {
    pub status: Status,
    pub crashed: bool,
    // The terminals that it knows.
    pub known: TerminalSet,
    pub card: C,
    pub stamp: Stamp,
    pub chart: Chart,
    // The number of its latest phase.
    pub number: PhaseNumber,
    // The largest phase number heard from each terminal.
    pub latest: [PhaseNumber; TERMINALS],
    pub operation: Operation<C>,
    pub retirement: Retirement,
}

impl<C: Copy> Replica<C> {
    // A terminal at the opening of its house.
    pub fn new(first: C, founder: Terminal) -> Replica<C>
        ensures { result ≡ fresh first founder }
    {
        Replica {
            status: Status::Idle,
            crashed: false,
            known: TerminalSet::new(),
            card: first,
            stamp: Stamp {
                count: 0,
                terminal: founder,
            },
            chart: Chart::first(),
            number: PhaseNumber(0),
            latest: [PhaseNumber(0); TERMINALS],
            operation: Operation::Free,
            retirement: Retirement::Free,
        }
    }

    // The terminal takes part: the founder at once, any other once it is told something. It knows itself.
    // `founder` is a `bool` and no enum of two cases: the caller has it as the answer of a comparison.
    pub fn enter(&mut self, me: Terminal, founder: bool)
        ensures { self.new ≡ entered me founder self.old }
    {
        self.status = if founder {
            Status::Active
        } else {
            Status::Joining
        };
        self.known = self.known.with(me);
    }

    // The terminal stops for ever.
    pub fn crash(&mut self)
        ensures { self.new ≡ after_crash self.old }
    {
        self.crashed = true;
    }

    // All that the terminal holds, as it is told to another.
    pub fn news_for(&self, to: Terminal) -> News<C>
        ensures { result ≡ news_for self.now to }
    {
        News {
            known: self.known,
            card: self.card,
            stamp: self.stamp,
            chart: self.chart,
            pns: self.number,
            pnr: number_from(&self.latest, to),
        }
    }
}
