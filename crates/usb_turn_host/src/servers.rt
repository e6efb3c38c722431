//! The server's side of the host.
ghost use Rattle.std.specs.Prelude.{◌≡◌};

use crate::given::TurnGiven;
use crate::host::TurnHost;
use crate::server::TurnServer;
use std::sync::Wait;
use usb_machine::{Look, Serves, Transfer};
use usb_types::{Code, UrbId};

impl Serves for TurnHost {
    type Server = TurnServer;

    type Given = TurnGiven;

    ghost use Rattle.std.specs.Prelude.{◌≡◌, [], false};
    ghost use Rattle.usb_machine.specs.State.{is_clear};
    ghost use Rattle.usb_machine.specs.History.{line_of, state_of};
    ghost use Rattle.usb_turn_host.specs.Setup.{setup_of};
    ghost use Rattle.usb_turn_host.specs.Stock.{machine_of};

    ghost has_none = { λ h p q e. line_of (machine_of (setup_of h.turns)) q.seen e ≡ [] };

    ghost is_marked_soon = { λ h p q u. ⊥ };

    ghost is_settled = { λ h s u. is_clear (state_of s.pass.seen u).mark ≡ false };

    fn take<R: Wait>(&self, rt: &R, server: &mut TurnServer, ep: u32) -> Option<(UrbId, Transfer)> {
        TurnHost::take(self, rt, server, ep)
    }

    fn look<R: Wait>(&self, rt: &R, server: &mut TurnServer, urb: UrbId) -> Look {
        TurnHost::look(self, rt, server, urb)
    }

    fn finish<R: Wait>(&self, rt: &R, server: &mut TurnServer, urb: UrbId, code: Code) -> bool {
        TurnHost::finish(self, rt, server, urb, code)
    }

    fn give<R: Wait>(&self, rt: &R, server: &mut TurnServer, urb: UrbId, t: Transfer) -> TurnGiven {
        TurnHost::give(self, rt, server, urb, t)
    }

    fn rest<R: Wait>(&self, rt: &R, server: &mut TurnServer, given: &mut TurnGiven, t: Transfer) {
        TurnHost::rest(self, rt, server, given.urb, t);
    }

    fn end<R: Wait>(&self, rt: &R, server: &mut TurnServer, given: TurnGiven) {
        TurnHost::end(self, rt, server, given.urb);
    }
}
