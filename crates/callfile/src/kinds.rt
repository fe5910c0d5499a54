// The kinds of card and of book that a file names, for a program that has to pick its types first.
ghost use Rattle.std.specs.Prelude.{◌≡◌};
ghost use Rattle.callfile.specs.Kinds.{or_unknown, card_sort, book_sort, kinds_of};

use crate::faults::Fault;
use crate::groups::GroupKind;
use crate::header::check_size;
use crate::limits::{BOOK_KIND_AT, CARD_KIND_AT};
use books::causes::Cause;
use books::sets::SetsGroup;
use books::votes::VotesGroup;
use cards::{CardKind, Sheet, SourCard};

// The kinds of card that there are.
#[derive(Clone, Copy, Debug, PartialEq, Eq)]
pub enum CardSort {
    Sheet = Sheet::KIND as isize,
    Sour = SourCard::KIND as isize,
}

// The kinds of book that there are.
#[derive(Clone, Copy, Debug, PartialEq, Eq)]
pub enum BookSort {
    Votes = VotesGroup::BOOK_KIND as isize,
    Sets = SetsGroup::BOOK_KIND as isize,
}

// A number that no kind has.
#[derive(Clone, Copy, Debug, PartialEq, Eq)]
pub struct UnknownKind(pub u8);

// One impl for each: the two are numbered apart, and each number is a constant of the kind's own trait.
impl TryFrom<u8> for CardSort {
    type Error = UnknownKind;

    ghost try_from_gives = { λ number r. r ≡ or_unknown (card_sort number) number };

    // By `if`: no pattern can name an associated constant of an enum.
    fn try_from(number: u8) -> Result<CardSort, UnknownKind> {
        if number == Sheet::KIND {
            Ok(CardSort::Sheet)
        } else if number == SourCard::KIND {
            Ok(CardSort::Sour)
        } else {
            Err(UnknownKind(number))
        }
    }
}

impl TryFrom<u8> for BookSort {
    type Error = UnknownKind;

    ghost try_from_gives = { λ number r. r ≡ or_unknown (book_sort number) number };

    fn try_from(number: u8) -> Result<BookSort, UnknownKind> {
        if number == VotesGroup::BOOK_KIND {
            Ok(BookSort::Votes)
        } else if number == SetsGroup::BOOK_KIND {
            Ok(BookSort::Sets)
        } else {
            Err(UnknownKind(number))
        }
    }
}

// The kinds that the file names, or the first fault on the way to them.
pub fn kinds_of(file: &[u8]) -> Result<(CardSort, BookSort), Fault>
    ensures { result ≡ kinds_of file.now }
{
    check_size(file)?;
    let card = CardSort::try_from(file[CARD_KIND_AT]);
    let book = BookSort::try_from(file[BOOK_KIND_AT]);
    Ok((
        card.map_err(|_| Fault::field(Cause::Kind, CARD_KIND_AT))?,
        book.map_err(|_| Fault::field(Cause::Kind, BOOK_KIND_AT))?,
    ))
}
