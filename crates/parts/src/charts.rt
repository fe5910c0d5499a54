// Charts: what is known of the group at each place.
ghost use Rattle.std.specs.Prelude.{◌≡◌};
ghost use Rattle.parts.specs.Charts.{entry_at, place_after, first_chart, join, join_at, retire_at, extend, cut, cut_length, gap};

use crate::counts::{Group, PLACES, Place};
use crate::entries::{Entry, cut_entries, entry_in, gap_in_entries, known_entries, put_together};
use crate::tables::put;

// A chart (the field's configuration map).
#[derive(Clone, Copy)]
pub struct Chart {
    places: [Entry; PLACES],
}

impl Chart {
    // Group 0 at place 0, and then unknown places.
    pub fn first() -> Chart
        ensures { result ≡ first_chart }
    {
        let mut places = [Entry::Unknown; PLACES];
        places[0] = Entry::Group(Group(0));
        Chart { places }
    }

    // The entry at a place; a place past the end is unknown.
    pub fn at(&self, k: Place) -> Entry
        ensures { result ≡ entry_at self.now k }
    {
        entry_in(&self.places, k.0 as usize)
    }

    // The entry at the place behind a place.
    pub fn after(&self, k: Place) -> Entry
        ensures { result ≡ entry_at self.now (place_after k) }
    {
        entry_in(&self.places, k.0 as usize + 1)
    }

    // The entries in the order of their places.
    pub fn entries(&self) -> &[Entry]
        ensures { result.now ≡ self.now.places }
    {
        &self.places
    }

    // Joins the other chart into this one, place by place.
    pub fn join(&mut self, other: &Chart)
        ensures { self.new ≡ join self.old other.now }
    {
        put_together(&mut self.places, &other.places, Entry::joined);
    }

    // Joins an entry into one place; past the end there is none, and nothing changes.
    pub fn join_at(&mut self, k: Place, other: Entry)
        ensures { self.new ≡ join_at k other self.old }
    {
        let entry = self.at(k).joined(other);
        put(&mut self.places, k.0 as usize, entry);
    }

    // One place becomes retired; past the end there is none, and nothing changes.
    pub fn retire(&mut self, k: Place)
        ensures { self.new ≡ retire_at k self.old }
    {
        put(&mut self.places, k.0 as usize, Entry::Retired);
    }

    // Extends this chart by the other, place by place.
    pub fn extend(&mut self, other: &Chart)
        ensures { self.new ≡ extend self.old other.now }
    {
        put_together(&mut self.places, &other.places, Entry::extended);
    }

    // How many places there are before the first unknown one.
    pub fn cut_length(&self) -> usize
        ensures { result ≡ cut_length self.now }
    {
        known_entries(&self.places)
    }

    // The chart with all unknown from its first unknown place on.
    pub fn cut(&self) -> Chart
        ensures { result ≡ cut self.now }
    {
        let mut chart = *self;
        cut_entries(&mut chart.places);
        chart
    }

    // Whether a group stands behind an unknown place.
    pub fn has_gap(&self) -> bool
        ensures { result ≡ gap self.now }
    {
        gap_in_entries(&self.places)
    }
}
