// Messages that leave the pool.
ghost use Rattle.std.specs.Prelude.{◌≡◌};
ghost use Rattle.house.specs.States.{state};
ghost use Rattle.house.specs.Steps.{listens, picked, take_step, arrived, deliver_step, lose_step};

use crate::house::House;
use crate::tables::take_out;
use parts::tables::{at, put};
use replica::messages::Message;
use replica::refusals::Refusal;
use replica::replicas::{Replica, Status};

// Whether a terminal takes messages in: it is neither idle nor crashed.
fn is_listening<C: Copy>(t: &Replica<C>) -> bool
    ensures { result ≡ listens t.now }
{
    match t.status {
        Status::Idle => false,
        Status::Joining | Status::Active => !t.crashed,
    }
}

impl<B> House<B> {
    // The message at position `p`, unless a cause holds.
    fn pick<C: Copy>(
        &self,
        replicas: &[Replica<C>],
        messages: &[Message<C>],
        p: u32,
    ) -> Result<Message<C>, Refusal>
        ensures { result ≡ picked p (state self.now replicas.now messages.now) }
    {
        if !self.fits(replicas, messages) {
            return Err(Refusal::WrongTables);
        }
        if p as usize >= self.waiting {
            return Err(Refusal::NoMessage);
        }
        at(messages, p as usize).ok_or(Refusal::NoMessage)
    }

    // The message at position `p` leaves the pool, and those behind it move up by one.
    fn take_message<C: Copy>(
        &mut self,
        replicas: &mut [Replica<C>],
        messages: &mut [Message<C>],
        p: u32,
    ) -> Result<Message<C>, Refusal>
        ensures { (result, state self.new replicas.new messages.new) ≡ take_step p (state self.old replicas.old messages.old) }
    {
        let message = self.pick(replicas, messages, p)?;
        take_out(messages, p as usize, self.waiting);
        self.waiting -= 1;
        Ok(message)
    }

    // The message comes to its receiver, if that and the sender exist and it takes messages in.
    fn arrive<C: Copy>(
        &mut self,
        replicas: &mut [Replica<C>],
        messages: &mut [Message<C>],
        message: Message<C>,
    )
        ensures { state self.new replicas.new messages.new ≡ arrived message (state self.old replicas.old messages.old) }
    {
        if message.from.0 >= self.size {
            return;
        }
        let to = message.to.0 as usize;
        let Some(mut t) = at(replicas, to) else {
            return;
        };
        if is_listening(&t) {
            t.take(message.from, &message.body);
            put(replicas, to, t);
        }
    }

    // The message at position `p` leaves the pool and comes to its receiver.
    pub fn deliver<C: Copy>(
        &mut self,
        replicas: &mut [Replica<C>],
        messages: &mut [Message<C>],
        p: u32,
    ) -> Result<(), Refusal>
        ensures { (result, state self.new replicas.new messages.new) ≡ deliver_step p (state self.old replicas.old messages.old) }
    {
        let message = self.take_message(replicas, messages, p)?;
        self.arrive(replicas, messages, message);
        Ok(())
    }

    // The message at position `p` leaves the pool.
    pub fn lose<C: Copy>(
        &mut self,
        replicas: &mut [Replica<C>],
        messages: &mut [Message<C>],
        p: u32,
    ) -> Result<(), Refusal>
        ensures { (result, state self.new replicas.new messages.new) ≡ lose_step p (state self.old replicas.old messages.old) }
    {
        self.take_message(replicas, messages, p)?;
        Ok(())
    }
}
