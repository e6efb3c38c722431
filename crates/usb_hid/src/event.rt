//! The events of a keyboard.

/// What happened at a keyboard.
#[derive(Clone, Copy)]
pub enum Event {
    /// A key went down: its usage (HID usage tables, page 07).
    Down { code: u8 },
    /// A key went up: its usage.
    Up { code: u8 },
    /// The lights were set: bit 0 is num lock, 1 caps lock, 2 scroll lock (HID usage tables, page 08).
    Led { lights: u8 },
}
