//! A host with its server, as the side of the controller.
ghost use Rattle.std.specs.Prelude.{ℕ, ◌≡◌, Option, List};
ghost use Rattle.usb_types.specs.declared.urb.UrbId.{UrbId};
ghost use Rattle.usb_machine.specs.declared.transfer.Transfer.{Transfer};
ghost use Rattle.usb_machine.specs.Tokens.{IsWholeServer};
ghost use Rattle.usb_side.specs.Side.{IsWholeSide, side_knows, SideTakes, SideLooks, SideFinishes, SideGives};

use std::sync::Wait;
use usb_machine::{Look, ServerToken, Serves, Transfer};
use usb_serve::Side;
use usb_types::{Code, UrbId};

/// A host with its server.
pub struct HostSide<'a, H: Serves, R: Wait> {
    pub(crate) rt: &'a R,
    pub(crate) host: &'a H,
    pub(crate) server: H::Server,
}

impl<'a, H: Serves, R: Wait> HostSide<'a, H, R> {
    /// A host with its server's token.
    pub fn new(rt: &'a R, host: &'a H, server: H::Server) -> HostSide<'a, H, R>
        requires here { H.is_of host.now (H.Server.own server) }
        requires whole { IsWholeServer (H.machine host.now) (H.known (H.Server.own server)) (H.Server.pending server) (H.Server.given server) (H.Server.has_room server) }
        ensures whole { IsWholeSide (H.machine result.host.now) (H.is_of result.host.now (H.Server.own result.server)) (H.known (H.Server.own result.server)) (H.Server.pending result.server) (H.Server.given result.server) (H.Server.has_room result.server) }
        ensures host { result.host.now ≡ host.now }
        ensures server { result.server ≡ server }
    {
        HostSide { rt, host, server }
    }

    /// The token again.
    pub fn into_server(self) -> H::Server
        ensures { result ≡ self.entry.server }
    {
        let HostSide {
            rt: _rt,
            host: _host,
            server,
        } = self;
        server
    }
}

impl<H: Serves, R: Wait> Side for HostSide<'_, H, R> {
    type Given = H::Given;

    ghost knows = { λ s. side_knows (H.machine s.host.now) (H.known (H.Server.own s.server)) (H.Server.given s.server) (IsWholeSide (H.machine s.host.now) (H.is_of s.host.now (H.Server.own s.server)) (H.known (H.Server.own s.server)) (H.Server.pending s.server) (H.Server.given s.server) (H.Server.has_room s.server)) (H.is_settled s.host.now s.server) };

    ghost takes = { λ s ep r z. SideTakes H.machine s.host.now z.host.now (H.known (H.Server.own s.server)) (H.known (H.Server.own z.server)) ep r (H.has_none s.host.now (H.Server.own s.server) (H.Server.own z.server) ep) };

    ghost looks = { λ s u look z. SideLooks H.machine s.host.now z.host.now (H.known (H.Server.own s.server)) (H.known (H.Server.own z.server)) u look (H.is_marked_soon s.host.now (H.Server.own s.server) (H.Server.own z.server) u.0) };

    ghost finishes = { λ s u code done z. SideFinishes H.machine s.host.now z.host.now (H.known (H.Server.own s.server)) (H.known (H.Server.own z.server)) u code done };

    ghost gives = { λ s u t y z. SideGives H.machine s.host.now z.host.now (H.known (H.Server.own s.server)) (H.known (H.Server.own z.server)) u t (H.Given.told y) };

    fn take(&mut self, ep: u32) -> Option<(UrbId, Transfer)> {
        self.host.take(self.rt, &mut self.server, ep)
    }

    fn look(&mut self, urb: UrbId) -> Look {
        self.host.look(self.rt, &mut self.server, urb)
    }

    fn finish(&mut self, urb: UrbId, code: Code) -> bool {
        self.host.finish(self.rt, &mut self.server, urb, code)
    }

    fn give(&mut self, urb: UrbId, t: Transfer) -> H::Given {
        self.host.give(self.rt, &mut self.server, urb, t)
    }

    fn may_give(&self) -> bool {
        self.server.may_give()
    }
}
