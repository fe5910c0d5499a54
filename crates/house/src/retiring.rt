// The four calls of a retirement.
ghost use Rattle.std.specs.Prelude.{◌≡◌};
ghost use Rattle.house.specs.Retiring.{retiring_step, retire_step, retire_settle_step, retire_confirm_step, retire_close_step};
ghost use Rattle.house.specs.States.{state};

use crate::guarding::Need;
use crate::house::House;
use books::book::Book;
use parts::counts::{Place, Terminal};
use parts::tables::put;
use replica::messages::Message;
use replica::refusals::Refusal;
use replica::replicas::Replica;
use replica::retirements::Retiring;

impl<B: Book> House<B> {
    // Moves the retirement of terminal `i` on.
    fn move_retirement<C: Copy>(
        &mut self,
        replicas: &mut [Replica<C>],
        messages: &mut [Message<C>],
        i: Terminal,
        call: Retiring,
    ) -> Result<(), Refusal>
        ensures { (result, state self.new replicas.new messages.new) ≡ retiring_step B.reads B.writes call i (state self.old replicas.old messages.old) }
    {
        let mut t = self.acting(replicas, messages, Need::ToBeActive, i, i)?;
        t.retire(&self.book, call)?;
        put(replicas, i.0 as usize, t);
        Ok(())
    }

    // The retirement of the place begins.
    pub fn retire<C: Copy>(
        &mut self,
        replicas: &mut [Replica<C>],
        messages: &mut [Message<C>],
        i: Terminal,
        k: Place,
    ) -> Result<(), Refusal>
        ensures { (result, state self.new replicas.new messages.new) ≡ retire_step B.reads B.writes i k (state self.old replicas.old messages.old) }
    {
        self.move_retirement(replicas, messages, i, Retiring::Begin(k))
    }

    // The query of the retirement ends.
    pub fn retire_settle<C: Copy>(
        &mut self,
        replicas: &mut [Replica<C>],
        messages: &mut [Message<C>],
        i: Terminal,
    ) -> Result<(), Refusal>
        ensures { (result, state self.new replicas.new messages.new) ≡ retire_settle_step B.reads B.writes i (state self.old replicas.old messages.old) }
    {
        self.move_retirement(replicas, messages, i, Retiring::Settle)
    }

    // The propagation of the retirement ends; the place is retired.
    pub fn retire_confirm<C: Copy>(
        &mut self,
        replicas: &mut [Replica<C>],
        messages: &mut [Message<C>],
        i: Terminal,
    ) -> Result<(), Refusal>
        ensures { (result, state self.new replicas.new messages.new) ≡ retire_confirm_step B.reads B.writes i (state self.old replicas.old messages.old) }
    {
        self.move_retirement(replicas, messages, i, Retiring::Confirm)
    }

    // The retirement ends.
    pub fn retire_close<C: Copy>(
        &mut self,
        replicas: &mut [Replica<C>],
        messages: &mut [Message<C>],
        i: Terminal,
    ) -> Result<(), Refusal>
        ensures { (result, state self.new replicas.new messages.new) ≡ retire_close_step B.reads B.writes i (state self.old replicas.old messages.old) }
    {
        self.move_retirement(replicas, messages, i, Retiring::Close)
    }
}
