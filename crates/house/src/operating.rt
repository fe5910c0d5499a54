// The five calls of an operation.
ghost use Rattle.std.specs.Prelude.{◌≡◌};
ghost use Rattle.house.specs.States.{state};
ghost use Rattle.house.specs.Steps.{operate_step, read_step, write_step, settle_step, confirm_step, collect_step};

use crate::guarding::Need;
use crate::house::House;
use books::book::Book;
use parts::counts::Terminal;
use parts::stamps::Stamp;
use parts::tables::put;
use replica::messages::Message;
use replica::operations::{Kind, Move};
use replica::refusals::Refusal;
use replica::replicas::Replica;

impl<B: Book> House<B> {
    // Moves the operation of terminal `i` on.
    fn operate<C: Copy>(
        &mut self,
        replicas: &mut [Replica<C>],
        messages: &mut [Message<C>],
        i: Terminal,
        call: Move<C>,
    ) -> Result<(C, Stamp), Refusal>
        ensures { (result, state self.new replicas.new messages.new) ≡ operate_step B.reads B.writes call i (state self.old replicas.old messages.old) }
    {
        let mut t = self.acting(replicas, messages, Need::ToBeActive, i, i)?;
        let pair = t.operate(&self.book, i, call)?;
        put(replicas, i.0 as usize, t);
        Ok(pair)
    }

    // A read begins.
    pub fn read<C: Copy>(
        &mut self,
        replicas: &mut [Replica<C>],
        messages: &mut [Message<C>],
        i: Terminal,
    ) -> Result<(), Refusal>
        ensures { (result, state self.new replicas.new messages.new) ≡ read_step B.reads B.writes i (state self.old replicas.old messages.old) }
    {
        self.operate(replicas, messages, i, Move::Begin(Kind::Read))?;
        Ok(())
    }

    // A write of the card begins.
    pub fn write<C: Copy>(
        &mut self,
        replicas: &mut [Replica<C>],
        messages: &mut [Message<C>],
        i: Terminal,
        card: C,
    ) -> Result<(), Refusal>
        ensures { (result, state self.new replicas.new messages.new) ≡ write_step B.reads B.writes i card (state self.old replicas.old messages.old) }
    {
        self.operate(replicas, messages, i, Move::Begin(Kind::Write(card)))?;
        Ok(())
    }

    // The query ends; the stamp is answered.
    pub fn settle<C: Copy>(
        &mut self,
        replicas: &mut [Replica<C>],
        messages: &mut [Message<C>],
        i: Terminal,
    ) -> Result<Stamp, Refusal>
        ensures { (result, state self.new replicas.new messages.new) ≡ settle_step B.reads B.writes i (state self.old replicas.old messages.old) }
    {
        let (_, stamp) = self.operate(replicas, messages, i, Move::Settle)?;
        Ok(stamp)
    }

    // The propagation ends; the operation is done.
    pub fn confirm<C: Copy>(
        &mut self,
        replicas: &mut [Replica<C>],
        messages: &mut [Message<C>],
        i: Terminal,
    ) -> Result<(), Refusal>
        ensures { (result, state self.new replicas.new messages.new) ≡ confirm_step B.reads B.writes i (state self.old replicas.old messages.old) }
    {
        self.operate(replicas, messages, i, Move::Confirm)?;
        Ok(())
    }

    // The operation ends; the card kept at settling and its stamp are answered.
    pub fn collect<C: Copy>(
        &mut self,
        replicas: &mut [Replica<C>],
        messages: &mut [Message<C>],
        i: Terminal,
    ) -> Result<(C, Stamp), Refusal>
        ensures { (result, state self.new replicas.new messages.new) ≡ collect_step B.reads B.writes i (state self.old replicas.old messages.old) }
    {
        self.operate(replicas, messages, i, Move::Collect)
    }
}
