//! A serial port over USB: bytes that came, notifications of its lines, and the requests that set it.
#![tactic(auto)]

mod acm;
mod event;
pub mod laws;
mod notifications;
mod requests;

pub use acm::Acm;
pub use event::Event;
pub use requests::{break_setup, coding, coding_setup, control_setup};
