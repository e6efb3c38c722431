//! One packet of a transfer, in or out.
ghost use Rattle.std.specs.Prelude.{ℕ, false, ◌≡◌, ◌+◌, ◌≤◌, ◌<◌, ◌++◌, length, List, take, drop, slice_range};
ghost use Rattle.usb_machine.specs.Shapes.{HasWindow};
ghost use Rattle.usb_xfer.specs.Replies.{Reply, Question, Fetch, Send, in_heard, out_heard};
ghost use Rattle.usb_xfer.specs.Input.{filled, input_moves, input_step};
ghost use Rattle.usb_xfer.specs.Output.{size_of_next, next_packet, output_moves, output_step};
ghost use Rattle.usb_xfer.specs.Direction.{is_control, asked_at};
ghost use Rattle.usb_xfer.specs.Moved.{question_of, Advances};

use crate::control::move_control;
use crate::device::{Device, InReply, OutReply};
use crate::direction::{is_control, is_in};
use usb_machine::{Shape, Transfer};
use usb_types::{Code, Errno};

/// How far a transfer is after one packet: it goes on, it waits for the device, or it has ended with a code.
#[derive(Clone, Copy, Debug, PartialEq)]
pub enum Step {
    More,
    Waiting,
    Ended(Code),
}

// The most bytes that the next packet may have.
fn next_size(t: &Transfer, max: u16) -> u32
    requires { t.now.actual ≤ t.now.len }
    ensures { result ≡ size_of_next max t.now }
{
    (max as u32).min(t.len - t.actual)
}

// Asks the device for one packet, at the place after the moved bytes.
fn fetch<D: Device>(t: &mut Transfer, shape: &Shape, device: &mut D) -> InReply
    requires { HasWindow t.old }
    ensures { (r : Reply) × (D.replies device.old shape.now.address Fetch r device.new) × (result ≡ in_heard r) × (t.new ≡ filled shape.now.max r t.old) }
{
    let from = (t.from + t.actual) as usize;
    let room = next_size(t, shape.max) as usize;
    device.input(shape.address, &mut t.buf.bytes_mut()[from..from + room])
}

// Moves one packet to the host, by the table.
fn move_in<D: Device>(t: &mut Transfer, shape: &Shape, device: &mut D) -> Step
    requires { HasWindow t.old }
    ensures { (r : Reply) × (D.replies device.old shape.now.address Fetch r device.new) × (t.new ≡ input_moves shape.now.max r t.old) × (result ≡ input_step shape.now.max r t.old) }
{
    match fetch(t, shape, device) {
        InReply::Nak => Step::Waiting,
        InReply::Stall => Step::Ended(Code::Fault(Errno::EPIPE)),
        InReply::Error => Step::Ended(Code::Fault(Errno::EPROTO)),
        InReply::Packet(n) => {
            if n > shape.max as u32 || n > t.len - t.actual {
                return Step::Ended(Code::Fault(Errno::EOVERFLOW));
            }
            t.actual += n;
            if n < shape.max as u32 || t.actual == t.len {
                if t.short_not_ok && t.actual < t.len {
                    Step::Ended(Code::Fault(Errno::EREMOTEIO))
                } else {
                    Step::Ended(Code::Zero)
                }
            } else {
                Step::More
            }
        }
    }
}

// Sends the device the next bytes of the window.
fn send<D: Device>(t: &Transfer, shape: &Shape, device: &mut D) -> OutReply
    requires { HasWindow t.now }
    ensures { (r : Reply) × (D.replies device.old shape.now.address (Send (next_packet shape.now.max t.now)) r device.new) × (result ≡ out_heard r) }
{
    let from = (t.from + t.actual) as usize;
    let size = next_size(t, shape.max) as usize;
    device.output(shape.address, &t.buf.bytes()[from..from + size])
}

// Moves one packet to the device, by the table.
fn move_out<D: Device>(t: &mut Transfer, shape: &Shape, device: &mut D) -> Step
    requires { HasWindow t.old }
    ensures { (r : Reply) × (D.replies device.old shape.now.address (Send (next_packet shape.now.max t.old)) r device.new) × (t.new ≡ output_moves shape.now.max r t.old) × (result ≡ output_step shape.now.max r t.old) }
{
    let size = next_size(t, shape.max);
    match send(t, shape, device) {
        OutReply::Nak => Step::Waiting,
        OutReply::Stall => Step::Ended(Code::Fault(Errno::EPIPE)),
        OutReply::Error => Step::Ended(Code::Fault(Errno::EPROTO)),
        OutReply::Ack => {
            t.actual += size;
            if t.actual == t.len {
                Step::Ended(Code::Zero)
            } else {
                Step::More
            }
        }
    }
}

// Moves one packet of an IN or an OUT endpoint.
fn move_packet<D: Device>(t: &mut Transfer, shape: &Shape, device: &mut D) -> Step
    requires window { HasWindow t.old }
    requires kind { is_control shape.now.kind ≡ false }
    ensures { (r : Reply) × (D.replies device.old (asked_at shape.now) (question_of shape.now t.old) r device.new) × Advances shape.now t.old t.new r result }
{
    if is_in(shape.address) {
        move_in(t, shape, device)
    } else {
        move_out(t, shape, device)
    }
}

/// Moves one packet, or one whole control transfer. What it leaves and answers is what all the transfer's replies together
/// do.
pub fn advance<D: Device>(t: &mut Transfer, shape: &Shape, device: &mut D) -> Step
    requires { HasWindow t.old }
    ensures { (r : Reply) × (D.replies device.old (asked_at shape.now) (question_of shape.now t.old) r device.new) × Advances shape.now t.old t.new r result }
{
    if is_control(shape.kind) {
        move_control(t, shape, device)
    } else {
        move_packet(t, shape, device)
    }
}
