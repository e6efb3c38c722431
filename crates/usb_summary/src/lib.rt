//! How the run of a number's scene goes, as one line.
#![tactic(auto)]

mod counts;
mod line;

pub use line::summary;
