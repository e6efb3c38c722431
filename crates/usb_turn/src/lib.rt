//! A value that passes take in turns, and one history of its rows that each pass sees a beginning of.
#![tactic(auto)]

mod kept;
mod rule;
mod turns;

pub use kept::Kept;
pub use turns::{Ended, TurnPass, Turns};
