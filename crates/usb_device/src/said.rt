//! What a script replies to a question.
ghost use Rattle.std.specs.Prelude.{◌≡◌, true};
ghost use Rattle.usb_xfer.specs.Replies.{Question, Hears, out_heard};
ghost use Rattle.usb_xfer.specs.declared.script.What.TheVariants as what;
ghost use Rattle.usb_xfer.specs.declared.script.DeviceScript.{DeviceScript};
ghost use Rattle.usb_device.specs.declared.state.DeviceState.{DeviceState};
ghost use Rattle.usb_device.specs.Short.{is_short};
ghost use Rattle.usb_device.specs.Items.{last_at};
ghost use Rattle.usb_device.specs.Places.{next_or};
ghost use Rattle.usb_device.specs.Device.{by_item};
ghost use Rattle.usb_device.specs.Said.{word_of, packet_word};

use crate::heard::{heard_in, heard_out};
use usb_xfer::{InReply, OutReply, What, is_in};

/// What a script replies to a question.
#[derive(Drop)]
pub enum Said<'a> {
    /// The reply of an item.
    Item(&'a What),
    /// The reply at a halt, or after the last item.
    Other(What),
    /// The reply is left to the rules.
    Rules,
}

// What an address replies after its last item.
fn last(address: u8) -> What
    ensures { result ≡ last_at address }
{
    if address == 0 {
        What::Stall
    } else if is_in(address) {
        What::Nak
    } else {
        What::Ack
    }
}

impl<'a> Said<'a> {
    /// An item, or what comes after the last one.
    pub fn or_last(next: Option<&'a What>, address: u8) -> Said<'a>
        requires { is_short (next_or what.Nak next) ≡ true }
        ensures word { (script : DeviceScript) (state : DeviceState) (question : Question) → word_of result script state question ≡ record { reply = next_or (last_at address) next.entry; state = state } }
        ensures short { is_short (packet_word result) ≡ true }
    {
        match next {
            Some(what) => Said::Item(what),
            None => Said::Other(last(address)),
        }
    }

    /// An item, or the rules at an `Ack` and after the last one.
    pub fn or_rules(next: Option<&'a What>) -> Said<'a>
        requires { is_short (next_or what.Nak next) ≡ true }
        ensures word { (script : DeviceScript) (state : DeviceState) (question : Question) → word_of result script state question ≡ by_item (next_or what.Ack next.entry) script state question }
        ensures short { is_short (packet_word result) ≡ true }
    {
        match next {
            None | Some(What::Ack) => Said::Rules,
            Some(what) => Said::Item(what),
        }
    }

    /// What the host hears where it asked for a packet.
    pub fn heard_in(&self, room: &mut [u8]) -> InReply
        requires { is_short (packet_word self.now) ≡ true }
        ensures { Hears (packet_word self.now) room.old room.new result }
    {
        match self {
            Said::Item(what) => heard_in(what, room),
            Said::Other(what) => heard_in(what, room),
            Said::Rules => InReply::Stall,
        }
    }

    /// What the host hears where it sent a packet.
    pub fn heard_out(&self) -> OutReply
        ensures { result ≡ out_heard (packet_word self.now) }
    {
        match self {
            Said::Item(what) => heard_out(what),
            Said::Other(what) => heard_out(what),
            Said::Rules => OutReply::Stall,
        }
    }
}
