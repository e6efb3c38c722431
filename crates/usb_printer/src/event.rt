//! The events of a printer.
use usb_types::{Buf, Code};

/// What happened at a printer.
#[derive(Drop)]
pub enum Event {
    /// The printer's device id, as it is printed.
    Id {
        text: Buf,
    },
    /// A job ended.
    Job {
        /// The transfer's name: of a call in a scene, its line.
        number: u64,
        /// How many bytes of the job were moved.
        bytes: u32,
        code: Code,
    },
    /// The port's status: bit 3 is set where there is no error, 4 where the printer is selected, 5 where paper is out
    /// (printer class 1.1 §4.2.2).
    Port {
        status: u8,
    },
}
