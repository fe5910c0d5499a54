// One terminal: what it holds, and what a call or a message makes of it.
#![tactic(auto)]

pub mod covering;
pub mod examples;
pub mod messages;
mod numbers;
pub mod operating;
pub mod operations;
pub mod receiving;
pub mod refusals;
pub mod replicas;
pub mod retirements;
pub mod retiring;
