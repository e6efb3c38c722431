//! A boot keyboard: its reports become events of keys, and a byte of lights goes the other way.
#![tactic(auto)]

mod changes;
mod event;
mod keyboard;
pub mod laws;
mod requests;

pub use event::Event;
pub use keyboard::Keyboard;
pub use requests::led_setup;
