//! One whole control transfer.
ghost use Rattle.std.specs.Prelude.{ℕ, ◌≡◌, true, false, [], List, length};
ghost use Rattle.usb_machine.specs.Shapes.{HasWindow};
ghost use Rattle.usb_xfer.specs.Direction.{goes_in, is_control, setup_in, asked_at};
ghost use Rattle.usb_xfer.specs.Replies.{Reply, Question, Ask, control_in_heard, control_out_heard};
ghost use Rattle.usb_xfer.specs.Control.{data_filled, window_of, control_in_moves, control_in_step, control_out_moves, control_out_step};
ghost use Rattle.usb_xfer.specs.Moved.{question_of, Advances};

use crate::device::{CtrlReply, Device};
use crate::direction::is_in;
use crate::packet::Step;
use usb_ctrl::Setup;
use usb_machine::{Shape, Transfer};
use usb_types::{Code, Errno};

// What the transfer asks.
fn setup_in(t: &Transfer) -> Setup
    ensures { result ≡ setup_in t.now.setup }
{
    match t.setup {
        Some(bytes) => Setup::read(bytes),
        None => Setup {
            kind: 0,
            request: 0,
            value: 0,
            index: 0,
            length: 0,
        },
    }
}

// Asks the device for data, and gives it the window as room.
fn ask_in<D: Device>(t: &mut Transfer, setup: Setup, device: &mut D) -> CtrlReply
    requires window { HasWindow t.old }
    requires way { goes_in setup.kind ≡ true }
    ensures { (r : Reply) × (D.replies device.old 0 (Ask setup []) r device.new) × (result ≡ control_in_heard r) × (t.new ≡ data_filled r t.old) }
{
    let from = t.from as usize;
    let len = t.len as usize;
    device.control(setup, &[], &mut t.buf.bytes_mut()[from..from + len])
}

// Moves a whole control transfer to the host, by the table.
fn move_control_in<D: Device>(t: &mut Transfer, setup: Setup, device: &mut D) -> Step
    requires window { HasWindow t.old }
    requires way { goes_in setup.kind ≡ true }
    ensures { (r : Reply) × (D.replies device.old 0 (Ask setup []) r device.new) × (t.new ≡ control_in_moves r t.old) × (result ≡ control_in_step r t.old) }
{
    match ask_in(t, setup, device) {
        CtrlReply::Nak => Step::Waiting,
        CtrlReply::Stall => Step::Ended(Code::Fault(Errno::EPIPE)),
        CtrlReply::Error => Step::Ended(Code::Fault(Errno::EPROTO)),
        CtrlReply::Moved(n) => {
            if n > t.len {
                return Step::Ended(Code::Fault(Errno::EOVERFLOW));
            }
            t.actual = n;
            if t.short_not_ok && n < t.len {
                Step::Ended(Code::Fault(Errno::EREMOTEIO))
            } else {
                Step::Ended(Code::Zero)
            }
        }
    }
}

// Sends the device all bytes of the window.
fn ask_out<D: Device>(t: &Transfer, setup: Setup, device: &mut D) -> CtrlReply
    requires window { HasWindow t.now }
    requires way { goes_in setup.kind ≡ false }
    ensures { (r : Reply) × (D.replies device.old 0 (Ask setup (window_of t.now)) r device.new) × (result ≡ control_out_heard t.now.len r) }
{
    let from = t.from as usize;
    let len = t.len as usize;
    device.control(setup, &t.buf.bytes()[from..from + len], &mut [])
}

// Moves a whole control transfer to the device, by the table.
fn move_control_out<D: Device>(t: &mut Transfer, setup: Setup, device: &mut D) -> Step
    requires window { HasWindow t.old }
    requires way { goes_in setup.kind ≡ false }
    ensures { (r : Reply) × (D.replies device.old 0 (Ask setup (window_of t.old)) r device.new) × (t.new ≡ control_out_moves r t.old) × (result ≡ control_out_step r t.old) }
{
    match ask_out(t, setup, device) {
        CtrlReply::Nak => Step::Waiting,
        CtrlReply::Stall => Step::Ended(Code::Fault(Errno::EPIPE)),
        CtrlReply::Error => Step::Ended(Code::Fault(Errno::EPROTO)),
        CtrlReply::Moved(_) => {
            t.actual = t.len;
            Step::Ended(Code::Zero)
        }
    }
}

/// Moves a whole control transfer.
pub fn move_control<D: Device>(t: &mut Transfer, shape: &Shape, device: &mut D) -> Step
    requires window { HasWindow t.old }
    requires kind { is_control shape.now.kind ≡ true }
    ensures { (r : Reply) × (D.replies device.old (asked_at shape.now) (question_of shape.now t.old) r device.new) × Advances shape.now t.old t.new r result }
{
    let setup = setup_in(t);
    if is_in(setup.kind) {
        move_control_in(t, setup, device)
    } else {
        move_control_out(t, setup, device)
    }
}
