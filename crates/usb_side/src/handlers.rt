//! A host with its server that was lent, as the side on which handlers run.
ghost use Rattle.std.specs.Prelude.{ℕ, ◌≡◌, Option, List, None, Some};
ghost use Rattle.usb_types.specs.declared.errno.Errno.{Errno};
ghost use Rattle.usb_machine.specs.Shapes.{HasWindow};
ghost use Rattle.usb_machine.specs.History.{HasHome};
ghost use Rattle.usb_machine.specs.Fresh.{Sound};
ghost use Rattle.usb_machine.specs.HostCalls.{Submitted, fault_at, shape_of};
ghost use Rattle.usb_machine.specs.HostCalls as host_answers;
ghost use Rattle.usb_side.specs.Side.{IsWholeSide, machine_in, side_runs, SideRests, SideSubmits, SideEnds};

use std::sync::Wait;
use usb_machine::{Host, Refused, Serves, Token, Transfer};
use usb_serve::HandlerSide;
use usb_types::UrbId;

/// A host with its server, while that is lent. Its calls leave the host and the loan as they are.
#[derive(Drop)]
pub(crate) struct ServerSide<'a, H: Serves, R: Wait> {
    pub(crate) rt: &'a R,
    pub(crate) host: &'a H,
    pub(crate) server: &'a mut H::Server,
}

impl<H: Serves, R: Wait> HandlerSide for ServerSide<'_, H, R> {
    type Given = H::Given;

    ghost runs = { λ s. side_runs (H.machine s.host.now) (H.known (H.Server.own s.server.now)) (IsWholeSide (H.machine s.host.now) (H.is_of s.host.now (H.Server.own s.server.now)) (H.known (H.Server.own s.server.now)) (H.Server.pending s.server.now) (H.Server.given s.server.now) (H.Server.has_room s.server.now)) };

    ghost rests = { λ s u t z. SideRests (machine_in H.machine) (s.host.now, s.server.ghost_name) (z.host.now, z.server.ghost_name) (H.known (H.Server.own s.server.now)) (H.known (H.Server.own z.server.now)) u t };

    ghost submits = { λ s u t r z. SideSubmits (machine_in H.machine) (s.host.now, s.server.ghost_name) (z.host.now, z.server.ghost_name) (H.known (H.Server.own s.server.now)) (H.known (H.Server.own z.server.now)) u t r };

    ghost ends = { λ s u z. SideEnds (machine_in H.machine) (s.host.now, s.server.ghost_name) (z.host.now, z.server.ghost_name) (H.known (H.Server.own s.server.now)) (H.known (H.Server.own z.server.now)) u };

    fn rest(&mut self, given: &mut H::Given, t: Transfer) {
        self.host.rest(self.rt, self.server, given, t);
    }

    fn submit(&mut self, urb: UrbId, t: Transfer) -> Result<(), Refused> {
        self.host.submit(self.rt, self.server.pass(), urb, t)
    }

    fn end(&mut self, given: H::Given) {
        self.host.end(self.rt, self.server, given);
    }
}
