//! What the host hears of a reply.
ghost use Rattle.std.specs.Prelude.{◌≡◌, ◌<◌, ◌^◌, true, length};
ghost use Rattle.usb_xfer.specs.declared.script.What.TheVariants as what;
ghost use Rattle.usb_xfer.specs.Replies.{room_after, Hears, out_heard, control_in_heard, control_out_heard, HearsControl};
ghost use Rattle.usb_device.specs.Short.{is_short};
ghost use Rattle.usb_device.specs.Acks.{is_taken};

use usb_ctrl::Setup;
use usb_xfer::{CtrlReply, InReply, OutReply, What, is_in};

/// Puts bytes into the room where they fit. Answers how many they are.
pub fn put(bytes: &[u8], room: &mut [u8]) -> u32
    requires { length bytes.now < 2 ^ 32 }
    ensures room { room.new ≡ room_after (what.Packet bytes.now) room.old }
    ensures count { result ≡ length bytes.now }
{
    if bytes.len() <= room.len() {
        room[..bytes.len()].copy_from_slice(bytes);
    }
    bytes.len() as u32
}

/// What the host hears of a reply where it asked for a packet, which is put into the room where it fits.
pub fn heard_in(reply: &What, room: &mut [u8]) -> InReply
    requires { is_short reply.now ≡ true }
    ensures { Hears reply.now room.old room.new result }
{
    match reply {
        What::Nak => InReply::Nak,
        What::Stall => InReply::Stall,
        What::Ack | What::Error => InReply::Error,
        What::Packet(packet) => InReply::Packet(put(packet.bytes(), room)),
    }
}

/// What the host hears of a reply where it sent a packet.
pub fn heard_out(reply: &What) -> OutReply
    ensures { result ≡ out_heard reply.now }
{
    match reply {
        What::Ack => OutReply::Ack,
        What::Nak => OutReply::Nak,
        What::Stall => OutReply::Stall,
        What::Error | What::Packet(_) => OutReply::Error,
    }
}

/// Whether the host hears that a packet was taken.
pub fn is_taken(heard: OutReply) -> bool
    ensures { result ≡ is_taken heard }
{
    matches!(heard, OutReply::Ack)
}

// What the host hears of a control transfer whose data come in.
fn heard_data(reply: &What, room: &mut [u8]) -> CtrlReply
    requires { is_short reply.now ≡ true }
    ensures room { room.new ≡ room_after reply.now room.old }
    ensures heard { result ≡ control_in_heard reply.now }
{
    match reply {
        What::Ack => CtrlReply::Moved(0),
        What::Nak => CtrlReply::Nak,
        What::Stall => CtrlReply::Stall,
        What::Error => CtrlReply::Error,
        What::Packet(packet) => CtrlReply::Moved(put(packet.bytes(), room)),
    }
}

// What the host hears of a control transfer of so many bytes whose data go out.
fn heard_taken(reply: &What, sent: u32) -> CtrlReply
    ensures { result ≡ control_out_heard sent reply.now }
{
    match reply {
        What::Ack | What::Packet(_) => CtrlReply::Moved(sent),
        What::Nak => CtrlReply::Nak,
        What::Stall => CtrlReply::Stall,
        What::Error => CtrlReply::Error,
    }
}

/// What the host hears of a control transfer.
pub fn heard_control(reply: &What, setup: Setup, out: &[u8], room: &mut [u8]) -> CtrlReply
    requires short { is_short reply.now ≡ true }
    requires size { length out.now < 2 ^ 32 }
    ensures { HearsControl setup out.now reply.now room.old room.new result }
{
    if is_in(setup.kind) {
        heard_data(reply, room)
    } else {
        heard_taken(reply, out.len() as u32)
    }
}
