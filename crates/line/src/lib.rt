// Whole days: a house is opened and a list of calls is played on it.
#![tactic(auto)]

pub mod days;
pub mod plays;
pub mod verdicts;
