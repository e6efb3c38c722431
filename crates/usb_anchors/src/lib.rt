//! Anchors that threads share by turns: their log replays, and their rejects are entries of a pass of their own.
#![tactic(auto)]

mod anchors;
mod closes;
mod opens;
mod rack;
mod rejects;
mod stopping;
mod stops;
mod takes;

pub use anchors::{AnchorPass, Anchors};
pub use rack::{Plan, Rack};
