// Entering and crashing.
ghost use Rattle.std.specs.Prelude.{◌≡◌};
ghost use Rattle.house.specs.States.{state};
ghost use Rattle.house.specs.Steps.{enter_step, crash_step};

use crate::guarding::Need;
use crate::house::House;
use parts::counts::Terminal;
use parts::tables::put;
use replica::messages::Message;
use replica::refusals::Refusal;
use replica::replicas::Replica;

impl<B> House<B> {
    // The terminal takes part: the founder at once, any other once it is told something.
    pub fn enter<C: Copy>(
        &mut self,
        replicas: &mut [Replica<C>],
        messages: &mut [Message<C>],
        i: Terminal,
    ) -> Result<(), Refusal>
        ensures { (result, state self.new replicas.new messages.new) ≡ enter_step i (state self.old replicas.old messages.old) }
    {
        let mut t = self.acting(replicas, messages, Need::ToBeIdle, i, i)?;
        t.enter(i, i == self.founder);
        put(replicas, i.0 as usize, t);
        Ok(())
    }

    // The terminal stops for ever.
    pub fn crash<C: Copy>(
        &mut self,
        replicas: &mut [Replica<C>],
        messages: &mut [Message<C>],
        i: Terminal,
    ) -> Result<(), Refusal>
        ensures { (result, state self.new replicas.new messages.new) ≡ crash_step i (state self.old replicas.old messages.old) }
    {
        let mut t = self.acting(replicas, messages, Need::Nothing, i, i)?;
        t.crash();
        put(replicas, i.0 as usize, t);
        Ok(())
    }
}
