// Cards: the values that a house keeps, as they stand in a file. Each kind of card has a number, a width and its bytes.
#![tactic(auto)]

pub mod kind;
pub mod sheet;
pub mod sour;
pub mod words;

pub use kind::{CardKind, WrongWidth};
pub use sheet::Sheet;
pub use sour::SourCard;
