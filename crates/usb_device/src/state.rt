//! What control transfers leave in a device.
ghost use Rattle.std.specs.Prelude.{◌≡◌, ◌<◌, slice_set, slice_index_or, false};
ghost use Rattle.usb_device.specs.Rules.{first_state};

/// What control transfers leave in a device.
#[derive(Drop)]
pub struct DeviceState {
    /// The device's address on the bus (USB 2.0 §9.4.6).
    pub address: u8,
    /// The value of its configuration, or 0 (USB 2.0 §9.4.7).
    pub configuration: u8,
    /// Whether an endpoint is halted, by its address (USB 2.0 §9.4.5).
    pub halted: [bool; 256],
    /// A modem's line coding: rate, stop bits, parity and data bits (CDC PSTN 1.2 §6.3.11).
    pub coding: [u8; 7],
    /// A modem's control lines (CDC PSTN 1.2 §6.3.12).
    pub lines: u16,
    /// A keyboard's LEDs (HID 1.11 appendix B.1).
    pub leds: u8,
}

impl DeviceState {
    /// The state of a device that heard nothing.
    pub fn new() -> DeviceState
        ensures { result ≡ first_state }
    {
        DeviceState {
            address: 0,
            configuration: 0,
            halted: [false; 256],
            coding: [0; 7],
            lines: 0,
            leds: 0,
        }
    }
}
