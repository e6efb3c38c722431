//! A printer: its jobs go out in windows, and after a fault the driver asks for the port's status.
#![tactic(auto)]

mod event;
mod ids;
mod jobs;
pub mod laws;
mod printer;
mod requests;

pub use event::Event;
pub use jobs::first_window;
pub use printer::Printer;
pub use requests::{reset_setup, status_setup};
