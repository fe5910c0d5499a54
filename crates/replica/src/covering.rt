// Whether the terminals heard contain a set of every group of a chart.
ghost use Rattle.std.specs.Prelude.{◌≡◌};
ghost use Rattle.replica.specs.Covering.{sets_of, covered_list};

use books::book::Book;
use parts::counts::Group;
use parts::entries::Entry;
use parts::sets::TerminalSet;

// One of the two families of sets that a group has.
#[derive(Clone, Copy)]
pub enum Family {
    ReadSets,
    WriteSets,
}

// Whether the set contains a set of the group's family.
pub(crate) fn contains<B: Book>(book: &B, family: Family, group: Group, set: TerminalSet) -> bool
    ensures { result ≡ sets_of (B.reads book.now) (B.writes book.now) family group set }
{
    match family {
        Family::ReadSets => book.has_read_set(group, set),
        Family::WriteSets => book.has_write_set(group, set),
    }
}

// Whether the terminals heard contain a set of the family of every group among the entries. It takes the family and
// no closure that asks the book: what a closure answers would need a clause of its own.
pub(crate) fn covers<B: Book>(
    book: &B,
    family: Family,
    entries: &[Entry],
    heard: TerminalSet,
) -> bool
    ensures { result ≡ covered_list (sets_of (B.reads book.now) (B.writes book.now) family) entries.now heard }
{
    entries.iter().all(|entry| match entry {
        Entry::Group(group) => contains(book, family, *group, heard),
        Entry::Unknown | Entry::Retired => true,
    })
}
