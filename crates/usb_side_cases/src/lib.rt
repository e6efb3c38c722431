//! Cases of a host with its server: threads that call, beside a thread that makes the controller's turns.
#![tactic(auto)]

mod crowd;
mod gathered;
mod layouts;
mod opened;
mod race;
mod raced;
mod rounds;
mod seldom;
mod serving;
#[cfg(test)]
mod tests;

pub use gathered::{crowd_by_turns, crowd_in_threads};
pub use layouts::one_out;
pub use raced::{race_by_turns, race_in_threads};
pub use seldom::Seldom;
