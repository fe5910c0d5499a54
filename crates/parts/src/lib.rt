// The parts that everything above is made of: the four sorts of count, stamps, sets of terminals, charts and calls.
#![tactic(auto)]

pub mod calls;
pub mod charts;
pub mod counts;
pub mod entries;
pub mod foundings;
pub mod laws;
pub mod sets;
pub mod stamps;
pub mod tables;
