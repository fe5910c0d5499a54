// A house: one card kept on many terminals, and the calls on it.
#![tactic(auto)]

pub mod appointing;
pub mod calling;
pub mod delivering;
pub mod entering;
pub mod guarding;
pub mod house;
pub mod opening;
pub mod operating;
pub mod posting;
pub mod retiring;
mod tables;
