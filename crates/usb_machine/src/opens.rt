//! How a host is made and closed.
ghost use Rattle.std.specs.Prelude.{◌≡◌, ◌<◌, ◌≤◌, ◌∷◌, All, List, map, IfOk};
ghost use Rattle.usb_machine.specs.declared.entry.TheConstants.{SERVER, HUB};
ghost use Rattle.usb_machine.specs.declared.entry.Entry.{Entry};
ghost use Rattle.usb_machine.specs.Parts.{keeps};
ghost use Rattle.usb_machine.specs.Plain.{IsLayout};
ghost use Rattle.usb_machine.specs.Replay.{machine_for};
ghost use Rattle.usb_machine.specs.Tokens.{IsWholeHub, IsWholeServer, AreAll, OneKeeps, IsClosed, unused, unused_from};

use crate::host_parts::Parts;
use crate::layout::Layout;
use crate::serves::Serves;
use std::alloc::Global;
use std::sync::Wait;
use usb_types::Memory;

/// A host that can be made and closed.
pub trait Opens: Serves {
    type Closed: Drop;

    ghost use Rattle.std.specs.Prelude.{List};
    ghost use Rattle.usb_machine.specs.declared.entry.Entry.{Entry};

    /// The history of a host that was closed.
    ghost history: { Self.Closed → List Entry };

    /// A host with nothing in it, and the tokens and passes that it has.
    fn new<R: Wait>(
        rt: &R,
        alloc: Global,
        layout: Layout,
        passes: u32,
    ) -> Result<Parts<Self, Self::Server, Self::Hub, Self::Pass>, Memory>
        requires passes { (0 < passes) × (passes ≤ 64) }
        requires layout { IsLayout layout }
        ensures machine { IfOk result (λ parts. Self.machine parts.host ≡ machine_for layout passes) }
        ensures here { IfOk result (λ parts. Self.is_of parts.host (Self.Server.own parts.server) × Self.is_of parts.host (Self.Hub.own parts.hub) × All (Self.is_of parts.host) parts.passes.items) }
        ensures server { IfOk result (λ parts. (Self.known (Self.Server.own parts.server) ≡ unused SERVER) × IsWholeServer (Self.machine parts.host) (unused SERVER) (Self.Server.pending parts.server) (Self.Server.given parts.server) (Self.Server.has_room parts.server)) }
        ensures hub { IfOk result (λ parts. (Self.known (Self.Hub.own parts.hub) ≡ unused HUB) × IsWholeHub (Self.machine parts.host) (unused HUB) (Self.Hub.flags parts.hub) (Self.Hub.has_room parts.hub)) }
        ensures passes { IfOk result (λ parts. map Self.known parts.passes.items ≡ unused_from 2 passes) };

    /// Ends the host, with all its tokens and passes in hand, of which one keeps each URB quiet.
    fn close(self, server: Self::Server, hub: Self::Hub, passes: Vec<Self::Pass>) -> Self::Closed
        requires here { Self.is_of self (Self.Server.own server) × Self.is_of self (Self.Hub.own hub) × All (Self.is_of self) passes.items }
        requires all { AreAll (Self.machine self) (Self.known (Self.Server.own server) ∷ Self.known (Self.Hub.own hub) ∷ map Self.known passes.items) }
        requires quiet { OneKeeps (Self.machine self) (Self.known (Self.Server.own server) ∷ Self.known (Self.Hub.own hub) ∷ map Self.known passes.items) }
        ensures { IsClosed (Self.machine self) (history result) (Self.known (Self.Server.own server) ∷ Self.known (Self.Hub.own hub) ∷ map Self.known passes.items) };
}
