//! The request that sets a keyboard's lights (HID 1.11 §7.2.2).
ghost use Rattle.std.specs.Prelude.{◌≡◌, [], ◌∷◌};
ghost use Rattle.usb_ctrl.specs.Setup.{setup_of};
ghost use Rattle.usb_hid.specs.Requests.{set_report};

use usb_ctrl::Setup;

/// The setup packet that sets the lights: the interface's SET_REPORT of one byte (HID 1.11 §7.2.2).
pub fn led_setup(interface: u8) -> [u8; 8]
    ensures bytes { result ≡ 0x21 ∷ 0x09 ∷ 0x00 ∷ 0x02 ∷ interface ∷ 0x00 ∷ 0x01 ∷ 0x00 ∷ [] }
    ensures request { setup_of result ≡ set_report interface }
{
    Setup {
        kind: 0x21,
        request: 0x09,
        value: 0x0200,
        index: interface.into(),
        length: 1,
    }
    .write()
}
