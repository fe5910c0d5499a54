// The listing of a call file: what a reader of the program sees.
#![tactic(auto)]

mod lines;
pub mod playing;
mod reading;
mod reports;
pub mod rewriting;
mod rows;
mod stops;
