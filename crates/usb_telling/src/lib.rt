//! What the drivers of devices report, as lines of a report.
#![tactic(auto)]

mod jobs;
mod keys;
mod serial;
mod told;

pub use told::push_driver_events;
