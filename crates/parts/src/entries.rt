// Entries, and rows of them of any length.
ghost use Rattle.std.specs.Prelude.{◌≡◌, ◌≤◌, length, slice_index_or};
ghost use Rattle.std.specs.List.{list_any};
ghost use Rattle.parts.specs.Charts.{join_entry, extend_entry, together, cut_list, length_list, gap_list, is_group};

use crate::counts::Group;

// What is known of one place.
#[derive(Clone, Copy)]
pub enum Entry {
    Unknown,
    Group(Group),
    Retired,
}

impl Entry {
    // Retired beats a group and a group beats unknown; of two groups the own one stays.
    pub(crate) fn joined(self, other: Entry) -> Entry
        ensures { result ≡ join_entry self other }
    {
        match (self, other) {
            (Entry::Unknown, _) => other,
            (_, Entry::Retired) => Entry::Retired,
            (_, _) => self,
        }
    }

    // An unknown place takes the other chart's group; any other place keeps its own.
    pub(crate) fn extended(self, other: Entry) -> Entry
        ensures { result ≡ extend_entry self other }
    {
        match (self, other) {
            (Entry::Unknown, Entry::Group(_)) => other,
            (_, _) => self,
        }
    }
}

// The entry at an index; past the end it is unknown.
pub(crate) fn entry_in(entries: &[Entry], k: usize) -> Entry
    ensures { result ≡ slice_index_or entries.now k Entry.Unknown }
{
    entries.get(k).copied().unwrap_or(Entry::Unknown)
}

// Puts the other row into the own one, place by place; the rule says what becomes of each own entry.
pub(crate) fn put_together<F: Fn(Entry, Entry) -> Entry>(
    own: &mut [Entry],
    other: &[Entry],
    rule: F,
)
    requires { F.IsAlwaysCallable rule }
    ensures { (f : Entry → Entry → Entry) → ((a b e : Entry) → F.post rule a b e → e ≡ f a b) → own.new ≡ together f own.old other.now }
{
    // No `zip`: the check knows a slice's elements after `iter_mut` alone and `enumerate`, and after no other adapter.
    for (k, entry) in own.iter_mut().enumerate() {
        if let Some(theirs) = other.get(k) {
            *entry = rule(*entry, *theirs);
        }
    }
}

// How many entries stand before the first unknown one.
pub(crate) fn known_entries(entries: &[Entry]) -> usize
    ensures value { result ≡ length_list entries.now }
    ensures within { result ≤ length entries.now }
{
    entries
        .iter()
        .position(|entry| matches!(entry, Entry::Unknown))
        .unwrap_or(entries.len())
}

// Makes all unknown from the first unknown entry on.
pub(crate) fn cut_entries(entries: &mut [Entry])
    ensures { entries.new ≡ cut_list entries.old }
{
    let known = known_entries(entries);
    entries[known..].fill(Entry::Unknown);
}

// Whether one of the entries is a group's.
fn has_group(entries: &[Entry]) -> bool
    ensures { result ≡ list_any is_group entries.now }
{
    entries.iter().any(|entry| matches!(entry, Entry::Group(_)))
}

// Whether a group stands behind an unknown entry. Looked for from a slice on: `skip` would walk over the known entries again.
pub(crate) fn gap_in_entries(entries: &[Entry]) -> bool
    ensures { result ≡ gap_list entries.now }
{
    has_group(&entries[known_entries(entries)..])
}
