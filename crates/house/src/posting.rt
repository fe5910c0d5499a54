// Knocks and news: what puts a message into the pool.
ghost use Rattle.std.specs.Prelude.{◌≡◌};
ghost use Rattle.house.specs.States.{state};
ghost use Rattle.house.specs.Steps.{posted, message, knock_step, send_step};

use crate::guarding::Need;
use crate::house::House;
use parts::counts::{MESSAGES, Terminal};
use parts::tables::put;
use replica::messages::{Body, Message};
use replica::refusals::Refusal;
use replica::replicas::Replica;

// The knock of a terminal at its host.
fn knock_message<C: Copy>(guest: Terminal, host: Terminal) -> Message<C>
    ensures { result ≡ message guest host Body.Knock }
{
    Message {
        from: guest,
        to: host,
        body: Body::Knock,
    }
}

impl<B> House<B> {
    // A message joins the pool at its end, unless the pool is full.
    fn post<C: Copy>(
        &mut self,
        replicas: &mut [Replica<C>],
        messages: &mut [Message<C>],
        message: Message<C>,
    ) -> Result<(), Refusal>
        ensures { (result, state self.new replicas.new messages.new) ≡ posted message (state self.old replicas.old messages.old) }
    {
        if self.waiting >= MESSAGES {
            return Err(Refusal::PoolFull);
        }
        put(messages, self.waiting, message);
        self.waiting += 1;
        Ok(())
    }

    // A joining terminal asks another to take it in.
    pub fn knock<C: Copy>(
        &mut self,
        replicas: &mut [Replica<C>],
        messages: &mut [Message<C>],
        i: Terminal,
        j: Terminal,
    ) -> Result<(), Refusal>
        ensures { (result, state self.new replicas.new messages.new) ≡ knock_step i j (state self.old replicas.old messages.old) }
    {
        self.acting(replicas, messages, Need::ToBeJoining, i, j)?;
        if i == j {
            return Err(Refusal::WrongReceiver);
        }
        self.post(replicas, messages, knock_message(i, j))
    }

    // A terminal tells another that it knows all that it holds.
    pub fn send<C: Copy>(
        &mut self,
        replicas: &mut [Replica<C>],
        messages: &mut [Message<C>],
        i: Terminal,
        j: Terminal,
    ) -> Result<(), Refusal>
        ensures { (result, state self.new replicas.new messages.new) ≡ send_step i j (state self.old replicas.old messages.old) }
    {
        let t = self.acting(replicas, messages, Need::ToBeActive, i, j)?;
        if !t.known.contains(j) {
            return Err(Refusal::WrongReceiver);
        }
        self.post(
            replicas,
            messages,
            Message {
                from: i,
                to: j,
                body: Body::News(t.news_for(j)),
            },
        )
    }
}
