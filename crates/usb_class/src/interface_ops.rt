//! What a call on an interface sends.
ghost use Rattle.std.specs.Prelude.{◌≡◌, IfOk};
ghost use Rattle.usb_class.specs.InterfaceOps.{role_for, urb_for, setup_for, payload_for, window_for};

use std::alloc::Global;
use usb_acm::{break_setup, coding, coding_setup, control_setup};
use usb_bind::{Bound, Driver};
use usb_hid::led_setup;
use usb_printer::{first_window, reset_setup, status_setup};
use usb_scene::InterfaceOp;
use usb_types::{Buf, Memory, Role, UrbId};

fn role_for(asked: InterfaceOp, driver: Driver) -> Option<Role>
    ensures { result ≡ role_for asked driver }
{
    match (driver, asked) {
        (Driver::Keyboard, InterfaceOp::Led { .. }) => Some(Role::Ctl),
        (Driver::Acm, InterfaceOp::Write) => Some(Role::Write),
        (
            Driver::Acm,
            InterfaceOp::Coding { .. }
            | InterfaceOp::Control { .. }
            | InterfaceOp::SendBreak { .. },
        ) => Some(Role::Ctl),
        (Driver::Printer, InterfaceOp::Print) => Some(Role::Write),
        (Driver::Printer, InterfaceOp::Status | InterfaceOp::SoftReset) => Some(Role::Ctl),
        _ => None,
    }
}

/// The URB that an operation submits of a binding: none where its driver has no such operation.
pub fn urb_for(asked: InterfaceOp, bound: &Bound) -> Option<UrbId>
    ensures { result ≡ urb_for asked bound.now }
{
    bound.urb(role_for(asked, bound.driver)?)
}

/// The setup packet that an operation sends to an interface.
pub fn setup_for(asked: InterfaceOp, interface: u8) -> Option<[u8; 8]>
    ensures { result ≡ setup_for asked interface }
{
    match asked {
        InterfaceOp::Led { .. } => Some(led_setup(interface)),
        InterfaceOp::Coding { .. } => Some(coding_setup(interface)),
        InterfaceOp::Control { lines } => Some(control_setup(interface, lines)),
        InterfaceOp::SendBreak { ms } => Some(break_setup(interface, ms)),
        InterfaceOp::Status => Some(status_setup(interface)),
        InterfaceOp::SoftReset => Some(reset_setup(interface)),
        InterfaceOp::Write | InterfaceOp::Print => None,
    }
}

/// The bytes that a call says.
pub fn copied(alloc: Global, said: &Option<Buf>) -> Result<Option<Buf>, Memory>
    ensures { IfOk result (λ copy. copy ≡ said.now) }
{
    match said {
        Some(bytes) => Ok(Some(Buf::copy(alloc, bytes.bytes())?)),
        None => Ok(None),
    }
}

/// The bytes of the buffer that an operation sends, where its call says these: none of its own where it says nothing.
pub fn payload_for(
    alloc: Global,
    asked: InterfaceOp,
    said: &Option<Buf>,
) -> Result<Option<Buf>, Memory>
    ensures { IfOk result (λ payload. payload ≡ payload_for asked said.now) }
{
    match asked {
        InterfaceOp::Coding {
            rate,
            stop,
            parity,
            bits,
        } => Ok(Some(Buf::copy(alloc, &coding(rate, stop, parity, bits))?)),
        InterfaceOp::Control { .. } | InterfaceOp::SendBreak { .. } | InterfaceOp::SoftReset => {
            Ok(Some(Buf::of(Vec::new(alloc))))
        }
        InterfaceOp::Status => Ok(Some(Buf::copy(alloc, &[0])?)),
        InterfaceOp::Led { .. } | InterfaceOp::Write | InterfaceOp::Print => { copied(alloc, said) }
    }
}

/// Length of the first window of an operation: at most 8,192 bytes for `print`, else the whole buffer.
pub fn window_for(asked: InterfaceOp, len: u32) -> u32
    ensures { result ≡ window_for asked len }
{
    match asked {
        InterfaceOp::Print => first_window(len),
        _ => len,
    }
}
