//! The requests to a printer (printer class 1.1 §4.2).
ghost use Rattle.std.specs.Prelude.{◌≡◌, [], ◌∷◌, IfOk};
ghost use Rattle.usb_ctrl.specs.Setup.{setup_of};
ghost use Rattle.usb_printer.specs.Requests.{get_port_status, soft_reset, question_of};

use std::alloc::Global;
use usb_ctrl::Setup;
use usb_machine::Transfer;
use usb_types::{Buf, Memory};

/// The setup packet that asks for the port's status: the interface's GET_PORT_STATUS of one byte (printer class 1.1 §4.2.2).
pub fn status_setup(interface: u8) -> [u8; 8]
    ensures bytes { result ≡ 0xA1 ∷ 0x01 ∷ 0x00 ∷ 0x00 ∷ interface ∷ 0x00 ∷ 0x01 ∷ 0x00 ∷ [] }
    ensures request { setup_of result ≡ get_port_status interface }
{
    Setup {
        kind: 0xA1,
        request: 0x01,
        value: 0,
        index: interface.into(),
        length: 1,
    }
    .write()
}

/// The setup packet that resets the printer: the interface's SOFT_RESET (printer class 1.1 §4.2.3).
pub fn reset_setup(interface: u8) -> [u8; 8]
    ensures bytes { result ≡ 0x21 ∷ 0x02 ∷ 0x00 ∷ 0x00 ∷ interface ∷ 0x00 ∷ 0x00 ∷ 0x00 ∷ [] }
    ensures request { setup_of result ≡ soft_reset interface }
{
    Setup {
        kind: 0x21,
        request: 0x02,
        value: 0,
        index: interface.into(),
        length: 0,
    }
    .write()
}

/// The transfer that asks for the port's status, with nothing moved.
pub(crate) fn question(alloc: Global, number: u64, interface: u8) -> Result<Transfer, Memory>
    ensures { IfOk result (λ t. t ≡ question_of number interface) }
{
    let room = vec![in alloc; 0; 1]?;
    Ok(Transfer {
        setup: Some(status_setup(interface)),
        buf: Buf::of(room),
        from: 0,
        len: 1,
        short_not_ok: false,
        actual: 0,
        number,
    })
}
