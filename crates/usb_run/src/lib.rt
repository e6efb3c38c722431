//! The program `usbrun` as one call: words, a scene or a number, the run in line order, the text of it.
#![tactic(auto)]

mod command;
mod input;
mod output;
mod status;
mod top;

pub use status::Status;
pub use top::{list, serial, usbrun};
pub use usb_generate::generate;
pub use usb_summary::summary;
