// What a book answers.
ghost use Rattle.std.specs.Prelude.{length};
ghost use Rattle.std.proofs.Common.{length-take, arith, ap};
ghost use Rattle.std.proofs.lemmas.Option.{slice_get_past};
ghost use Rattle.books.specs.Tables.{booked, group_at, members_in, in_group};
ghost use Rattle.books.specs.Answers.{kept, there, found_in, given_in, meet_in, some_in, inside_in};

use super::Table;
use crate::book::Book;
use crate::rules::GroupRule;
use parts::counts::Group;
use parts::sets::TerminalSet;

impl<G: GroupRule> Book for Table<G> {
    ghost size = { λ b. length (booked b) };

    ghost members_of = { λ b c. members_in G.members_of (group_at b c) };

    ghost read_set = { λ b c q. in_group G.read_set (group_at b c) q };

    ghost write_set = { λ b c q. in_group G.write_set (group_at b c) q };

    ghost reads = { λ b c s. in_group G.reads (group_at b c) s };

    ghost writes = { λ b c s. in_group G.writes (group_at b c) s };

    ghost few = { λ b. omega (arith, length-take b.count b.entries, b.within) };

    ghost reads_found = { λ b c. found_in G.read_set G.reads G.reads_found (group_at b c) };

    ghost reads_given = { λ b c. given_in G.read_set G.reads G.reads_given (group_at b c) };

    ghost writes_found = { λ b c. found_in G.write_set G.writes G.writes_found (group_at b c) };

    ghost writes_given = { λ b c. given_in G.write_set G.writes G.writes_given (group_at b c) };

    ghost first = { λ b c. meet_in G.sound G.read_set G.write_set G.meet (group_at b c) (kept b c) };

    ghost second = { λ b c h. some_in G.sound G.read_set G.write_set G.some (group_at b c) (kept b c) (there b c h) };

    ghost reads_inside = { λ b c. inside_in G.sound G.members_of G.read_set G.reads_inside (group_at b c) (kept b c) };

    ghost writes_inside = { λ b c. inside_in G.sound G.members_of G.write_set G.writes_inside (group_at b c) (kept b c) };

    ghost lacking = { λ b c h.
        let e = slice_get_past (booked b) c.0 h in
        (ap (members_in G.members_of) e, λ s. (ap (λ o. in_group G.reads o s) e, ap (λ o. in_group G.writes o s) e)) };

    fn count(&self) -> u32 {
        self.count as u32
    }

    fn members(&self, group: Group) -> TerminalSet {
        self.group(group)
            .map_or(TerminalSet::new(), |g| g.members())
    }

    fn has_read_set(&self, group: Group, set: TerminalSet) -> bool {
        self.group(group).is_some_and(|g| g.has_read_set(set))
    }

    fn has_write_set(&self, group: Group, set: TerminalSet) -> bool {
        self.group(group).is_some_and(|g| g.has_write_set(set))
    }
}
