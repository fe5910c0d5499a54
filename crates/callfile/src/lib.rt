// Call files: a day as bytes. Behind a header stand the groups of the book, the first card and the calls.
#![tactic(auto)]

mod calls;
mod entries;
pub mod faults;
pub mod filling;
pub mod groups;
mod header;
pub mod kinds;
pub mod letters;
pub mod limits;
mod measuring;
pub mod reading;
pub mod sets;
pub mod summary;
mod tables;
pub mod votes;
pub mod writing;

pub use faults::{Fault, Part};
pub use filling::read;
pub use groups::{GroupKind, GroupTable, TableGroup};
pub use kinds::{BookSort, CardSort, UnknownKind, kinds_of};
pub use letters::{SplitCall, short_call, spell, split};
pub use reading::check;
pub use summary::Summary;
pub use writing::write;
