//! A device that takes one packet in a few.
ghost use Rattle.std.specs.Prelude.{◌≡◌, ◌⊎◌, ◌≤◌};
ghost use Rattle.std.proofs.Common.{arith};
ghost use Rattle.usb_xfer.specs.declared.script.What.TheVariants as what;

use usb_ctrl::Setup;
use usb_xfer::{CtrlReply, Device, InReply, OutReply};

/// How many packets it is sent for each that it takes.
const PERIOD: u32 = 4;

/// A device that takes one packet in a few, and answers Nak to all else.
#[derive(Drop)]
pub struct Seldom {
    sent: u32,
}

impl Seldom {
    /// One that was sent nothing.
    pub fn new() -> Seldom {
        Seldom { sent: 0 }
    }
}

impl Device for Seldom {
    ghost replies = { λ old address question r new. (r ≡ what.Nak) ⊎ (r ≡ what.Ack) };

    ghost items_used = { λ d. 0 };

    ghost never_falls = { λ old address question r new is. Prim.omega arith };

    fn input(&mut self, _address: u8, _room: &mut [u8]) -> InReply {
        InReply::Nak
    }

    fn output(&mut self, _address: u8, _packet: &[u8]) -> OutReply {
        self.sent = self.sent.wrapping_add(1);
        if self.sent % PERIOD == 0 {
            OutReply::Ack
        } else {
            OutReply::Nak
        }
    }

    fn control(&mut self, _setup: Setup, _out: &[u8], _room: &mut [u8]) -> CtrlReply {
        CtrlReply::Nak
    }

    fn used(&self) -> u64 {
        0
    }
}
