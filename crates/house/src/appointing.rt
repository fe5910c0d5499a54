// The list of places: how it gains a group, and how a terminal learns of one.
ghost use Rattle.std.specs.Prelude.{◌≡◌, take};
ghost use Rattle.std.specs.Result.{result_err};
ghost use Rattle.house.specs.Appointing.{is_listed, is_active, active_if_member, members_active, listed_at, why_not_appoint, appoint_step, tell_step};
ghost use Rattle.house.specs.States.{state};
ghost use Rattle.parts.specs.Limits.{terminals};

use crate::guarding::Need;
use crate::house::House;
use books::book::Book;
use parts::counts::{Group, PLACES, Place, TERMINALS, Terminal};
use parts::entries::Entry;
use parts::sets::TerminalSet;
use parts::tables::{at, put};
use replica::messages::Message;
use replica::refusals::Refusal;
use replica::replicas::Replica;

// Whether the group is one of the list.
fn is_listed(listed: &[Group], group: Group) -> bool
    ensures { result ≡ is_listed listed.now group }
{
    listed.contains(&group)
}

// Whether there is a row and its terminal is active.
fn is_active<C: Copy>(row: Option<Replica<C>>) -> bool
    ensures { result ≡ is_active row }
{
    row.is_some_and(|t| Need::ToBeActive.is_met_by(t.status))
}

// Whether a terminal with this row is active if it is a member.
fn is_active_if_member<C: Copy>(members: TerminalSet, t: Terminal, row: Option<Replica<C>>) -> bool
    ensures { result ≡ active_if_member members t row }
{
    !members.contains(t) || is_active(row)
}

// Whether each member has a row and is active.
fn are_active<C: Copy>(members: TerminalSet, replicas: &[Replica<C>]) -> bool
    ensures { result ≡ members_active members replicas.now terminals }
{
    (0..TERMINALS).all(|k| is_active_if_member(members, Terminal(k as u32), at(replicas, k)))
}

impl<B> House<B> {
    // The groups in the order of their places.
    fn listed_groups(&self) -> &[Group]
        ensures { result.now ≡ take self.now.places self.now.listed }
    {
        &self.listed[..self.places]
    }

    // The group listed at a place that can be told; place 0 cannot.
    fn listed_at(&self, k: Place) -> Option<Group>
        ensures { result ≡ listed_at k (take self.now.places self.now.listed) }
    {
        if k == Place(0) {
            return None;
        }
        at(self.listed_groups(), k.0 as usize)
    }

    // The terminal learns which group is listed at the place.
    pub fn tell<C: Copy>(
        &mut self,
        replicas: &mut [Replica<C>],
        messages: &mut [Message<C>],
        i: Terminal,
        k: Place,
    ) -> Result<(), Refusal>
        ensures { (result, state self.new replicas.new messages.new) ≡ tell_step i k (state self.old replicas.old messages.old) }
    {
        let mut t = self.acting(replicas, messages, Need::NotToBeIdle, i, i)?;
        let group = self.listed_at(k).ok_or(Refusal::WrongPlace)?;
        t.chart.join_at(k, Entry::Group(group));
        put(replicas, i.0 as usize, t);
        Ok(())
    }
}

impl<B: Book> House<B> {
    // Whether the group may be appointed; if not, why.
    fn may_appoint<C: Copy>(
        &self,
        replicas: &[Replica<C>],
        messages: &[Message<C>],
        group: Group,
    ) -> Result<(), Refusal>
        ensures { result_err result ≡ why_not_appoint B.size B.members_of group (state self.now replicas.now messages.now) }
    {
        if !self.fits(replicas, messages) {
            return Err(Refusal::WrongTables);
        }
        if group.0 >= self.book.count() {
            return Err(Refusal::NotInBook);
        }
        if is_listed(self.listed_groups(), group) {
            return Err(Refusal::AlreadyListed);
        }
        if self.places >= PLACES {
            return Err(Refusal::ListFull);
        }
        if !are_active(self.book.members(group), replicas) {
            return Err(Refusal::NeverActive);
        }
        Ok(())
    }

    // The list of places gains the group at its end.
    pub fn appoint<C: Copy>(
        &mut self,
        replicas: &mut [Replica<C>],
        messages: &mut [Message<C>],
        group: Group,
    ) -> Result<(), Refusal>
        ensures { (result, state self.new replicas.new messages.new) ≡ appoint_step B.size B.members_of group (state self.old replicas.old messages.old) }
    {
        self.may_appoint(replicas, messages, group)?;
        put(&mut self.listed, self.places, group);
        self.places += 1;
        Ok(())
    }
}
