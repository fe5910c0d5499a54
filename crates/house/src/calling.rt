// Any call on a house.
ghost use Rattle.std.specs.Prelude.{◌≡◌};
ghost use Rattle.house.specs.Calls.{plain_answer, step};
ghost use Rattle.house.specs.Guards.{mapped};
ghost use Rattle.house.specs.States.{state};

use crate::house::House;
use books::book::Book;
use parts::calls::Call;
use parts::stamps::Stamp;
use replica::messages::Message;
use replica::refusals::Refusal;
use replica::replicas::Replica;

// What an accepted call answers.
#[derive(Clone, Copy)]
pub enum Answer<C> {
    // Nothing.
    Plain,
    // The stamp of a settled operation.
    Settled(Stamp),
    // The card kept at settling and its stamp.
    Collected((C, Stamp)),
}

// A call that answers nothing.
fn plain<C: Copy>(done: Result<(), Refusal>) -> Result<Answer<C>, Refusal>
    ensures { result ≡ mapped plain_answer done }
{
    done?;
    Ok(Answer::Plain)
}

impl<B: Book> House<B> {
    // Makes the call.
    #[tactic(auto, unfolding(crate::specs::Calls::step))]
    pub fn call<C: Copy>(
        &mut self,
        replicas: &mut [Replica<C>],
        messages: &mut [Message<C>],
        call: Call<C>,
    ) -> Result<Answer<C>, Refusal>
        ensures { (result, state self.new replicas.new messages.new) ≡ step B.size B.members_of B.reads B.writes call (state self.old replicas.old messages.old) }
    {
        match call {
            Call::Enter(i) => plain(self.enter(replicas, messages, i)),
            Call::Knock(i, j) => plain(self.knock(replicas, messages, i, j)),
            Call::Send(i, j) => plain(self.send(replicas, messages, i, j)),
            Call::Deliver(p) => plain(self.deliver(replicas, messages, p)),
            Call::Lose(p) => plain(self.lose(replicas, messages, p)),
            Call::Crash(i) => plain(self.crash(replicas, messages, i)),
            Call::Read(i) => plain(self.read(replicas, messages, i)),
            Call::Write(i, card) => plain(self.write(replicas, messages, i, card)),
            Call::Settle(i) => Ok(Answer::Settled(self.settle(replicas, messages, i)?)),
            Call::Confirm(i) => plain(self.confirm(replicas, messages, i)),
            Call::Collect(i) => Ok(Answer::Collected(self.collect(replicas, messages, i)?)),
            Call::Appoint(group) => plain(self.appoint(replicas, messages, group)),
            Call::Tell(i, k) => plain(self.tell(replicas, messages, i, k)),
            Call::Retire(i, k) => plain(self.retire(replicas, messages, i, k)),
            Call::RetireSettle(i) => plain(self.retire_settle(replicas, messages, i)),
            Call::RetireConfirm(i) => plain(self.retire_confirm(replicas, messages, i)),
            Call::RetireClose(i) => plain(self.retire_close(replicas, messages, i)),
        }
    }
}
