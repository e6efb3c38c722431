//! The requests that set up a serial port (PSTN 1.2 §6.3).
ghost use Rattle.std.specs.Prelude.{◌≡◌, [], ◌∷◌, ◌++◌};
ghost use Rattle.std.specs.Int.{w32, to_le_bytes};
ghost use Rattle.usb_ctrl.specs.Setup.{setup_of, low, high};
ghost use Rattle.usb_acm.specs.Requests.{set_line_coding, set_control_lines, send_break, rate_bytes};

use usb_ctrl::Setup;

/// The setup packet that sets the line coding, of seven bytes (PSTN 1.2 §6.3.10).
pub fn coding_setup(interface: u8) -> [u8; 8]
    ensures bytes { result ≡ 0x21 ∷ 0x20 ∷ 0x00 ∷ 0x00 ∷ interface ∷ 0x00 ∷ 0x07 ∷ 0x00 ∷ [] }
    ensures request { setup_of result ≡ set_line_coding interface }
{
    Setup {
        kind: 0x21,
        request: 0x20,
        value: 0,
        index: interface.into(),
        length: 7,
    }
    .write()
}

/// The setup packet that sets the control lines: bit 0 is DTR, 1 RTS (PSTN 1.2 §6.3.12).
pub fn control_setup(interface: u8, lines: u8) -> [u8; 8]
    ensures bytes { result ≡ 0x21 ∷ 0x22 ∷ lines ∷ 0x00 ∷ interface ∷ 0x00 ∷ 0x00 ∷ 0x00 ∷ [] }
    ensures request { setup_of result ≡ set_control_lines interface lines }
{
    Setup {
        kind: 0x21,
        request: 0x22,
        value: lines.into(),
        index: interface.into(),
        length: 0,
    }
    .write()
}

/// The setup packet that sends a break of so many milliseconds (PSTN 1.2 §6.3.13).
pub fn break_setup(interface: u8, ms: u16) -> [u8; 8]
    ensures bytes { result ≡ 0x21 ∷ 0x23 ∷ low ms ∷ high ms ∷ interface ∷ 0x00 ∷ 0x00 ∷ 0x00 ∷ [] }
    ensures request { setup_of result ≡ send_break interface ms }
{
    Setup {
        kind: 0x21,
        request: 0x23,
        value: ms,
        index: interface.into(),
        length: 0,
    }
    .write()
}

/// The seven bytes of a line coding (PSTN 1.2 §6.3.11): bits a second, stop bits as 0, 1 or 2 for 1, 1.5 or 2, the kind
/// of parity, data bits.
pub fn coding(rate: u32, stop: u8, parity: u8, bits: u8) -> [u8; 7]
    ensures { result ≡ rate_bytes rate ++ stop ∷ parity ∷ bits ∷ [] }
{
    let [r0, r1, r2, r3] = rate.to_le_bytes();
    [r0, r1, r2, r3, stop, parity, bits]
}
