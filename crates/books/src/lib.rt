#![tactic(auto)]

pub mod book;
pub mod causes;
pub mod readers;
pub mod rules;
pub mod sets;
pub mod table;
pub mod votes;
