// What a message makes of the terminal that receives it.
ghost use Rattle.std.specs.Prelude.{◌≡◌, nat_le};
ghost use Rattle.replica.specs.Receiving.{heard_phase, heard_operation, heard_retiring, heard_retirement, received, taken};

use crate::messages::{Body, News};
use crate::numbers::raise;
use crate::operations::{Operation, Phase};
use crate::replicas::{Replica, Status};
use crate::retirements::Retirement;
use parts::charts::Chart;
use parts::counts::{PhaseNumber, Terminal};
use parts::sets::TerminalSet;

// What a phase under way hears of a message.
#[derive(Clone, Copy)]
struct Told<'a> {
    from: Terminal,
    // The largest phase number that the sender has heard from the receiver.
    pnr: PhaseNumber,
    // The sender's chart.
    theirs: &'a Chart,
    // The receiver's chart, with the sender's joined into it.
    own: &'a Chart,
}

impl Told<'_> {
    // Whether the message answers the phase with this number.
    fn answers(&self, number: PhaseNumber) -> bool
        ensures { result ≡ nat_le number.0 self.now.pnr.0 }
    {
        number <= self.pnr
    }

    // The terminals heard in the phase with this number once the message was.
    fn counted(&self, number: PhaseNumber, heard: TerminalSet) -> TerminalSet
        ensures { result ≡ heard_retiring self.now.from self.now.pnr number heard }
    {
        if self.answers(number) {
            heard.with(self.from)
        } else {
            heard
        }
    }
}

impl Phase {
    // Counts the sender of an answer to this phase. Where the sender's chart opens a gap, the phase starts over
    // with the cut of the terminal's own chart.
    fn hear(&mut self, told: &Told)
        ensures { self.new ≡ heard_phase told.now.from told.now.pnr told.now.theirs.now told.now.own.now self.old }
    {
        if told.answers(self.number) {
            let mut longer = self.chart;
            longer.extend(&told.theirs.cut());
            if longer.has_gap() {
                self.chart = told.own.cut();
                self.heard = TerminalSet::new();
            } else {
                self.chart = longer;
                self.heard = self.heard.with(told.from);
            }
        }
    }
}

impl<C: Copy> Operation<C> {
    // A query or a propagation hears the message.
    fn hear(&mut self, told: &Told)
        ensures { self.new ≡ heard_operation told.now.from told.now.pnr told.now.theirs.now told.now.own.now self.old }
    {
        match self {
            // Two arms: the check does not know what the whole becomes where an or-pattern lends its part.
            Operation::Query(_, phase) => phase.hear(told),
            Operation::Prop(_, phase) => phase.hear(told),
            Operation::Free | Operation::Done(_) => {}
        }
    }
}

impl Retirement {
    // A retirement counts the sender of an answer to its phase.
    fn hear(&mut self, told: &Told)
        ensures { self.new ≡ heard_retirement told.now.from told.now.pnr self.old }
    {
        match self {
            // Two arms, as at an operation.
            Retirement::Query { number, heard, .. } => *heard = told.counted(*number, *heard),
            Retirement::Prop { number, heard, .. } => *heard = told.counted(*number, *heard),
            Retirement::Free => {}
        }
    }
}

impl<C: Copy> Replica<C> {
    // Takes a message in.
    pub fn take(&mut self, from: Terminal, body: &Body<C>)
        ensures { self.new ≡ taken from body.now self.old }
    {
        match body {
            Body::Knock => self.known = self.known.with(from),
            Body::News(news) => self.receive(from, news),
        }
    }

    fn receive(&mut self, from: Terminal, news: &News<C>)
        ensures { self.new ≡ received from news.now self.old }
    {
        self.status = Status::Active;
        self.known = self.known.union(news.known);
        if self.stamp.is_below(news.stamp) {
            self.card = news.card;
            self.stamp = news.stamp;
        }
        self.chart.join(&news.chart);
        raise(&mut self.latest, from, news.pns);
        let told = Told {
            from,
            pnr: news.pnr,
            theirs: &news.chart,
            own: &self.chart,
        };
        self.operation.hear(&told);
        self.retirement.hear(&told);
    }
}
