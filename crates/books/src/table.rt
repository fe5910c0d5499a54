// The table of a book.
ghost use Rattle.std.specs.Prelude.{◌≡◌, ℕ, ◌-◌, ◌<◌, ◌≤◌, true, length, get_or, drop, replicate, ⊤};
ghost use Rattle.books.specs.Books.{table_groups};

use crate::rules::GroupRule;
use std::alloc::AllocError;

pub mod adding;
pub mod answers;
pub mod reading;

// The groups that a book's table has room for.
pub const GROUPS: usize = 32;

// A book of groups of one kind: the first `count` entries keep the rule and their arrays have all their places, the others are blank.
// It is an array with a count, since a book takes no memory of its own.
pub struct Table<G: GroupRule> {
    entries: [G; GROUPS],
    count: usize,
    ghost whole: { length entries ≡ table_groups },
    ghost within: { count ≤ table_groups },
    ghost kept: { (k : ℕ) → k < count → G.sound (get_or entries k G.blank) ≡ true },
    ghost wide: { (k : ℕ) → k < count → G.full (get_or entries k G.blank) ≡ true },
    ghost rest: { drop count entries ≡ replicate (table_groups - count) G.blank },
}

// By hand, since a derive is refused on a generic struct with ghost fields.
impl<G: GroupRule> Clone for Table<G> {
    ghost is_clone = { λ x y. y ≡ x };

    ghost is_infallible = { λ _. ⊤ };

    fn clone(&self) -> Result<Self, AllocError> {
        Ok(*self)
    }
}

impl<G: GroupRule> Copy for Table<G> {}
