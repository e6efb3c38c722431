//! Cases of a shared host: threads that poison, kill and meet over one host, with clauses on the history that they made.
#![tactic(auto)]

mod closes;
mod kills;
mod many;
mod one;
mod opened;
#[cfg(test)]
mod tests;
mod turns;

pub use closes::close_two;
pub use kills::{kill_and_meet, kill_both};
pub use many::poison_in_threads;
pub use one::one_urb;
pub use opened::opened_and_closed;
pub use turns::{kills_by_turns, poison_by_turns, run_by_turns};
