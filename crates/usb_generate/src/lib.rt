//! Scenes that a number makes: devices, URBs and calls, drawn by it.
#![tactic(auto)]

mod draws;
mod generator;

pub use generator::generate;
