// Setting the groups of a book from the entries of a file.
ghost use Rattle.std.specs.Prelude.{◌≡◌};
ghost use Rattle.books.specs.Tables.{booked, add_read, full_cause};

use super::{GROUPS, Table};
use crate::causes::Cause;
use crate::readers::EntryReader;
use crate::rules::GroupRule;

// The cause for which a full table declines the bytes.
fn full_cause<G: GroupRule, R: EntryReader<G>>(bytes: &[u8]) -> Cause
    ensures { result ≡ full_cause G.sound (R.EntryReader.form_of bytes.now) }
{
    let mut group = G::blank();
    match R::read_into(bytes, &mut group) {
        Ok(()) if group.keeps_rule() => Cause::Limit,
        _ => Cause::BadEntry,
    }
}

impl<G: GroupRule> Table<G> {
    // The entry behind the last group is lent to the reader, which writes it whole from the bytes.
    // If it keeps its rule, it is the next group.
    pub fn add_entry<R: EntryReader<G>>(&mut self, bytes: &[u8]) -> Result<(), Cause>
        ensures { (result, booked self.new) ≡ add_read G.sound (R.EntryReader.form_of bytes.now) (booked self.old) }
    {
        if self.count == GROUPS {
            return Err(full_cause::<G, R>(bytes));
        }
        let entry = &mut self.entries[self.count];
        R::read_into(bytes, entry)?;
        if !entry.keeps_rule() {
            *entry = G::blank();
            return Err(Cause::BadEntry);
        }
        self.count += 1;
        Ok(())
    }
}
