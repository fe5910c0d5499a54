// Setting the groups of a book one by one, and asking for them.
ghost use Rattle.std.specs.Prelude.{◌≡◌, true, []};
ghost use Rattle.std.specs.List.{slice_get};
ghost use Rattle.books.specs.Tables.{booked, add_step};

use super::{GROUPS, Table};
use crate::causes::Cause;
use crate::rules::GroupRule;
use parts::counts::Group;
use parts::tables::at;

impl<G: GroupRule> Table<G> {
    // The book without a group.
    pub fn new() -> Self
        ensures { booked result ≡ [] }
    {
        Table {
            entries: [G::blank(); GROUPS],
            count: 0,
        }
    }

    // The group becomes the next one, if it keeps its rule and there is room.
    // In any case its arrays have all their places.
    pub fn add(&mut self, group: G) -> Result<(), Cause>
        ensures answer { (result, booked self.new) ≡ add_step G.sound group (booked self.old) }
        ensures places { G.full group ≡ true }
    {
        if !group.keeps_rule() {
            return Err(Cause::BadEntry);
        }
        if self.count == GROUPS {
            return Err(Cause::Limit);
        }
        self.entries[self.count] = group;
        self.count += 1;
        Ok(())
    }

    // The groups, in the order in which they were added.
    pub fn groups(&self) -> &[G]
        ensures { result.now ≡ booked self.now }
    {
        &self.entries[..self.count]
    }

    // Group c, if the book has it.
    pub fn group(&self, c: Group) -> Option<G>
        ensures { result ≡ slice_get (booked self.now) c.0 }
    {
        at(self.groups(), c.0 as usize)
    }
}
