// What a terminal's operation does next.
ghost use Rattle.std.specs.Prelude.{◌≡◌};
ghost use Rattle.replica.specs.Operating.{new_phase, beginning, settling, confirming, collecting, moved};
ghost use Rattle.parts.specs.Charts.{cut};

use crate::covering::{Family, covers};
use crate::operations::{Kind, Move, Operation, Phase};
use crate::refusals::Refusal;
use crate::replicas::Replica;
use books::book::Book;
use parts::charts::Chart;
use parts::counts::{PhaseNumber, Terminal};
use parts::sets::TerminalSet;
use parts::stamps::Stamp;

impl Phase {
    // A phase that begins over the cut of a chart, with nobody heard.
    fn new(number: PhaseNumber, chart: &Chart) -> Phase
        ensures { result ≡ new_phase number.0 (cut chart.now) }
    {
        Phase {
            number,
            chart: chart.cut(),
            heard: TerminalSet::new(),
        }
    }
}

impl<C: Copy> Replica<C> {
    // Moves the operation on: what the terminal does is decided by its phase and the call together.
    // Answers the card and the stamp that the operation is about: the terminal's own until it settles, and then those it keeps.
    // Not inlined: where it is, its callers pay at their entry for all that its phases may need, also for a call that they decline.
    #[inline(never)]
    pub fn operate<B: Book>(
        &mut self,
        book: &B,
        me: Terminal,
        call: Move<C>,
    ) -> Result<(C, Stamp), Refusal>
        ensures { (result, self.new) ≡ moved (B.reads book.now) (B.writes book.now) me call self.old }
    {
        let operation = self.operation;
        match (operation, call) {
            (Operation::Free, Move::Begin(kind)) => self.begin(kind),
            (_, Move::Begin(_)) => Err(Refusal::UnderWay),
            (Operation::Query(kind, phase), Move::Settle) => self.settle(book, me, kind, phase),
            (Operation::Prop(kept, phase), Move::Confirm) => self.confirm(book, kept, phase),
            (Operation::Done(kept), Move::Collect) => self.collect(kept),
            (_, _) => Err(Refusal::WrongPhase),
        }
    }

    // A read or a write begins with its query.
    fn begin(&mut self, kind: Kind<C>) -> Result<(C, Stamp), Refusal>
        ensures { (result, self.new) ≡ beginning kind self.old }
    {
        let number = self.number.next().ok_or(Refusal::NumbersEnd)?;
        self.number = number;
        self.operation = Operation::Query(kind, Phase::new(number, &self.chart));
        Ok((self.card, self.stamp))
    }

    // The query ends: the operation keeps a card and a stamp, which are the terminal's from now on, and spreads them.
    fn settle<B: Book>(
        &mut self,
        book: &B,
        me: Terminal,
        kind: Kind<C>,
        phase: Phase,
    ) -> Result<(C, Stamp), Refusal>
        ensures { (result, self.new) ≡ settling (B.reads book.now) me kind phase self.old }
    {
        if !covers(book, Family::ReadSets, phase.chart.entries(), phase.heard) {
            return Err(Refusal::SetMissing);
        }
        let number = self.number.next().ok_or(Refusal::NumbersEnd)?;
        let (card, stamp) = match kind {
            Kind::Read => (self.card, self.stamp),
            Kind::Write(card) => (card, self.stamp.next(me).ok_or(Refusal::CountsEnd)?),
        };
        self.card = card;
        self.stamp = stamp;
        self.number = number;
        self.operation = Operation::Prop((card, stamp), Phase::new(number, &self.chart));
        Ok((card, stamp))
    }

    // The propagation ends, and the operation is done.
    fn confirm<B: Book>(
        &mut self,
        book: &B,
        kept: (C, Stamp),
        phase: Phase,
    ) -> Result<(C, Stamp), Refusal>
        ensures { (result, self.new) ≡ confirming (B.writes book.now) kept phase self.old }
    {
        if !covers(book, Family::WriteSets, phase.chart.entries(), phase.heard) {
            return Err(Refusal::SetMissing);
        }
        self.operation = Operation::Done(kept);
        Ok(kept)
    }

    // The operation ends.
    fn collect(&mut self, kept: (C, Stamp)) -> Result<(C, Stamp), Refusal>
        ensures { (result, self.new) ≡ collecting kept self.old }
    {
        self.operation = Operation::Free;
        Ok(kept)
    }
}
