// A book's own table is filled from a file group by group.
ghost use Rattle.std.specs.Prelude.{◌≡◌, true};
ghost use Rattle.std.proofs.Common.{ap, ◌∙◌, rules};
ghost use Rattle.std.proofs.lemmas.Bool.{and_from};
ghost use Rattle.books.specs.Tables.{booked};
ghost use Rattle.books.specs.Answers.{each_booked};

use crate::groups::{GroupTable, TableGroup};
use books::causes::Cause;
use books::table::Table;
use parts::tables::at;

impl<G: TableGroup> GroupTable<G> for Table<G> {
    ghost groups = { booked };

    ghost ruled = { λ t. each_booked (λ g. G.keeps g ≡ true) t (λ k h. G.by_rule _ ∙ and_from _ _ (t.wide k h) (t.kept k h)) };

    ghost few = { Prim.search rules };

    fn group_count(&self) -> usize {
        self.groups().len()
    }

    fn group_at(&self, i: usize) -> Option<G> {
        at(self.groups(), i)
    }

    fn clear(&mut self) {
        *self = Table::new();
    }

    #[tactic(auto, using(crate::proofs::EntryReads::reads_ruled))]
    fn append_entry(&mut self, bytes: &[u8]) -> Result<(), Cause> {
        self.add_entry::<G::Reader>(bytes)
    }
}
