// The causes that every call looks at first.
ghost use Rattle.std.specs.Prelude.{◌≡◌};
ghost use Rattle.house.specs.Guards.{meets, ready, acting};
ghost use Rattle.house.specs.States.{state, tables_fit};

use crate::house::House;
use parts::counts::{MESSAGES, Terminal};
use parts::tables::at;
use replica::messages::Message;
use replica::refusals::Refusal;
use replica::replicas::{Replica, Status};

// What a call needs of the acting terminal's status. An enum and no closure: each call names its need, and the rules speak of it by that name.
#[derive(Clone, Copy)]
pub enum Need {
    ToBeIdle,
    ToBeJoining,
    ToBeActive,
    NotToBeIdle,
    Nothing,
}

impl Need {
    pub(crate) fn is_met_by(self, status: Status) -> bool
        ensures { result ≡ meets self status }
    {
        match (self, status) {
            (Need::ToBeIdle, Status::Idle) => true,
            (Need::ToBeJoining, Status::Joining) => true,
            (Need::ToBeActive, Status::Active) => true,
            (Need::NotToBeIdle, Status::Joining | Status::Active) => true,
            (Need::Nothing, _) => true,
            (_, _) => false,
        }
    }
}

// The acting terminal, unless it does not exist, has crashed, or has a status that the call does not want.
fn ready_one<C: Copy>(need: Need, row: Option<Replica<C>>) -> Result<Replica<C>, Refusal>
    ensures { result ≡ ready need row }
{
    let t = row.ok_or(Refusal::NoTerminal)?;
    if t.crashed {
        return Err(Refusal::Crashed);
    }
    if !need.is_met_by(t.status) {
        return Err(Refusal::WrongStatus);
    }
    Ok(t)
}

impl<B> House<B> {
    // Whether the tables have a row for each terminal and the pool's rows.
    pub(crate) fn fits<C: Copy>(&self, replicas: &[Replica<C>], messages: &[Message<C>]) -> bool
        ensures { result ≡ tables_fit (state self.now replicas.now messages.now) }
    {
        replicas.len() == self.size as usize && messages.len() == MESSAGES
    }

    // The acting terminal `i` of a call that also names `j` (itself where it names no other), or the first cause that holds.
    pub(crate) fn acting<C: Copy>(
        &self,
        replicas: &[Replica<C>],
        messages: &[Message<C>],
        need: Need,
        i: Terminal,
        j: Terminal,
    ) -> Result<Replica<C>, Refusal>
        ensures { result ≡ acting need i j (state self.now replicas.now messages.now) }
    {
        if !self.fits(replicas, messages) {
            return Err(Refusal::WrongTables);
        }
        if j.0 >= self.size {
            return Err(Refusal::NoTerminal);
        }
        ready_one(need, at(replicas, i.0 as usize))
    }
}
