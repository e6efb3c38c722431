//! The events of a serial port.
use usb_types::{Buf, Code};

/// What happened at a serial port.
#[derive(Drop)]
pub enum Event {
    /// Bytes came in, at least one.
    Rx { bytes: Buf },
    /// The lines stand so: bit 0 is DCD, 1 DSR, 2 break, 3 ring, 4 framing, 5 parity, 6 overrun (PSTN 1.2 §6.5.4).
    State { bits: u16 },
    /// Another notification: its bNotification.
    Note { request: u8 },
    /// A notification that names more data than any has.
    BadNote,
    /// The line coding was set: the bytes that were sent (PSTN 1.2 §6.3.10).
    Coding { bytes: Buf },
    /// A write came back: how many bytes it moved, and its status.
    Tx { actual: u32, code: Code },
}
