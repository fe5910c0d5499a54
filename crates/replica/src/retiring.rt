// What a terminal's retirement does next.
ghost use Rattle.std.specs.Prelude.{◌≡◌};
ghost use Rattle.parts.specs.Charts.{is_group, is_retired};
ghost use Rattle.replica.specs.Covering.{sets_of};
ghost use Rattle.replica.specs.Retiring.{entry_has, may_retire, is_over, has_asked, has_told, retire_beginning, retire_settling, retire_confirming, retire_closing, retire_moved};

use crate::covering::{Family, contains};
use crate::refusals::Refusal;
use crate::replicas::Replica;
use crate::retirements::{Retirement, Retiring};
use books::book::Book;
use parts::charts::Chart;
use parts::counts::Place;
use parts::entries::Entry;
use parts::sets::TerminalSet;

fn is_group(entry: Entry) -> bool
    ensures { result ≡ is_group entry }
{
    matches!(entry, Entry::Group(_))
}

fn is_retired(entry: Entry) -> bool
    ensures { result ≡ is_retired entry }
{
    matches!(entry, Entry::Retired)
}

// Whether the set contains a set of the family of the entry's group; an entry without a group has none.
fn entry_has<B: Book>(book: &B, family: Family, entry: Entry, set: TerminalSet) -> bool
    ensures { result ≡ entry_has (sets_of (B.reads book.now) (B.writes book.now) family) entry set }
{
    match entry {
        Entry::Group(group) => contains(book, family, group, set),
        Entry::Unknown | Entry::Retired => false,
    }
}

// Whether place k may be retired: it and the place behind it hold groups, and it is place 0 or the one before it is retired.
fn may_retire(chart: &Chart, k: Place) -> bool
    ensures { result ≡ may_retire chart.now k }
{
    is_group(chart.at(k))
        && is_group(chart.after(k))
        && (k == Place(0) || is_retired(chart.at(Place(k.0 - 1))))
}

// Whether place k is retired already.
fn is_over(chart: &Chart, k: Place) -> bool
    ensures { result ≡ is_over chart.now k }
{
    is_retired(chart.at(k))
}

// Whether the terminals heard contain a read set and a write set of the group at place k.
fn has_asked<B: Book>(book: &B, chart: &Chart, k: Place, heard: TerminalSet) -> bool
    ensures { result ≡ has_asked (B.reads book.now) (B.writes book.now) chart.now k heard }
{
    let entry = chart.at(k);
    entry_has(book, Family::ReadSets, entry, heard)
        && entry_has(book, Family::WriteSets, entry, heard)
}

// Whether the terminals heard contain a write set of the group at the place behind k.
fn has_told<B: Book>(book: &B, chart: &Chart, k: Place, heard: TerminalSet) -> bool
    ensures { result ≡ has_told (B.writes book.now) chart.now k heard }
{
    entry_has(book, Family::WriteSets, chart.after(k), heard)
}

impl<C: Copy> Replica<C> {
    // Moves the retirement on: what the terminal does is decided by its phase and the call together.
    pub fn retire<B: Book>(&mut self, book: &B, call: Retiring) -> Result<(), Refusal>
        ensures { (result, self.new) ≡ retire_moved (B.reads book.now) (B.writes book.now) call self.old }
    {
        let retirement = self.retirement;
        match (retirement, call) {
            (Retirement::Free, Retiring::Begin(place)) => self.begin_retiring(place),
            (_, Retiring::Begin(_)) => Err(Refusal::UnderWay),
            (Retirement::Query { place, heard, .. }, Retiring::Settle) => {
                self.settle_retiring(book, place, heard)
            }
            (Retirement::Prop { place, heard, .. }, Retiring::Confirm) => {
                self.confirm_retiring(book, place, heard)
            }
            (Retirement::Query { place, .. } | Retirement::Prop { place, .. }, Retiring::Close) =>
                self.close_retiring(place),
            (_, _) => Err(Refusal::WrongPhase),
        }
    }

    // A retirement begins with its query.
    fn begin_retiring(&mut self, place: Place) -> Result<(), Refusal>
        ensures { (result, self.new) ≡ retire_beginning place self.old }
    {
        if !may_retire(&self.chart, place) {
            return Err(Refusal::WrongPlace);
        }
        let number = self.number.next().ok_or(Refusal::NumbersEnd)?;
        self.number = number;
        self.retirement = Retirement::Query {
            place,
            number,
            heard: TerminalSet::new(),
        };
        Ok(())
    }

    // The query ends, and the retirement tells the group at the next place.
    fn settle_retiring<B: Book>(
        &mut self,
        book: &B,
        place: Place,
        heard: TerminalSet,
    ) -> Result<(), Refusal>
        ensures { (result, self.new) ≡ retire_settling (B.reads book.now) (B.writes book.now) place heard self.old }
    {
        if is_over(&self.chart, place) {
            return Err(Refusal::AlreadyRetired);
        }
        if !has_asked(book, &self.chart, place, heard) {
            return Err(Refusal::SetMissing);
        }
        let number = self.number.next().ok_or(Refusal::NumbersEnd)?;
        self.number = number;
        self.retirement = Retirement::Prop {
            place,
            number,
            heard: TerminalSet::new(),
        };
        Ok(())
    }

    // The place becomes retired; the retirement stays where it is until it is closed.
    fn confirm_retiring<B: Book>(
        &mut self,
        book: &B,
        place: Place,
        heard: TerminalSet,
    ) -> Result<(), Refusal>
        ensures { (result, self.new) ≡ retire_confirming (B.writes book.now) place heard self.old }
    {
        if is_over(&self.chart, place) {
            return Err(Refusal::AlreadyRetired);
        }
        if !has_told(book, &self.chart, place, heard) {
            return Err(Refusal::SetMissing);
        }
        self.chart.retire(place);
        Ok(())
    }

    // The retirement ends once its place is retired.
    fn close_retiring(&mut self, place: Place) -> Result<(), Refusal>
        ensures { (result, self.new) ≡ retire_closing place self.old }
    {
        if !is_over(&self.chart, place) {
            return Err(Refusal::WrongPlace);
        }
        self.retirement = Retirement::Free;
        Ok(())
    }
}
