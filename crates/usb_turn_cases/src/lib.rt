//! Cases of turns: a tally that two to sixty-six threads add to, with a clause on the history that they made.
#![tactic(auto)]

mod entry;
mod many;
mod shared;
mod tally;
#[cfg(test)]
mod tests;
mod two;

pub use entry::{Entry, Made};
pub use many::add_in_threads;
pub use shared::SharedTally;
pub use tally::{Fixed, Tally};
pub use two::add_in_two_threads;
