//! Hosts, as the side that takes URBs and gives them back sees them.
ghost use Rattle.std.specs.Prelude.{IsTrue, ◌≡◌, ℕ, ◌<◌, ◌^◌, [], ◌∷◌, false, length, Option, Some, None};
ghost use Rattle.usb_machine.specs.declared.event.Event.TheVariants.{Finish, Give, Rest, End};
ghost use Rattle.usb_machine.specs.declared.event.Answer.TheVariants.{Truth, Nothing, Code as Status};
ghost use Rattle.usb_machine.specs.declared.transfer.Transfer.{Transfer};
ghost use Rattle.usb_machine.specs.Shapes.{HasWindow};
ghost use Rattle.usb_machine.specs.History.{home_of, state_of, pending_of};
ghost use Rattle.usb_machine.specs.Legal.{IsFirst};
ghost use Rattle.usb_machine.specs.Calls.{entry, plain_entry};
ghost use Rattle.usb_machine.specs.Tokens.{IsWholeServer, IsPending, WasSent, is_finished};
ghost use Rattle.usb_machine.specs.Fresh.{Fresh, Looked};
ghost use Rattle.usb_machine.specs.HostCalls.{IsUrb, Took, Finds, IfMarked};

use crate::host::Host;
use crate::host_answers::Look;
use crate::tokens::{GivenBack, ServerToken};
use crate::transfer::Transfer;
use std::sync::Wait;
use usb_types::{Code, UrbId};

/// A host whose server takes URBs and gives them back. Until the handlers have a thread of their own they run by the
/// server's token.
pub trait Serves: Host {
    type Server: ServerToken<Pass = Self::Pass>;

    type Given: GivenBack;

    ghost use Rattle.std.specs.Prelude.{ℕ};

    /// Why nothing was taken at an endpoint, by the server's pass before and after.
    ghost has_none: { Self → Self.Pass → Self.Pass → ℕ → Type 0 };

    /// Why a mark that stands could not be read, by the server's pass before and after.
    ghost is_marked_soon: { Self → Self.Pass → Self.Pass → ℕ → Type 0 };

    /// The server knows that a mark of the URB stands, and its status.
    ghost is_settled: { Self → Self.Server → ℕ → Type 0 };

    /// Takes the first URB of an endpoint's line, with the transfer that was submitted.
    fn take<R: Wait>(&self, rt: &R, server: &mut Self::Server, ep: u32) -> Option<(UrbId, Transfer)>
        requires here { Self.is_of self.now (Self.Server.own server.old) }
        requires whole { IsWholeServer (Self.machine self.now) (Self.known (Self.Server.own server.old)) (Self.Server.pending server.old) (Self.Server.given server.old) (Self.Server.has_room server.old) }
        requires end { ep < length (Self.machine self.now).layout.shapes }
        ensures here { Self.is_of self.now (Self.Server.own server.new) }
        ensures whole { IsWholeServer (Self.machine self.now) (Self.known (Self.Server.own server.new)) (Self.Server.pending server.new) (Self.Server.given server.new) (Self.Server.has_room server.new) }
        ensures took { Took (Self.machine self.now) (Self.known (Self.Server.own server.old)) (Self.known (Self.Server.own server.new)) ep result (has_none self.now (Self.Server.own server.old) (Self.Server.own server.new) ep) };

    /// Looks at the mark of a pending URB that is not finished.
    fn look<R: Wait>(&self, rt: &R, server: &mut Self::Server, urb: UrbId) -> Look
        requires here { Self.is_of self.now (Self.Server.own server.old) }
        requires whole { IsWholeServer (Self.machine self.now) (Self.known (Self.Server.own server.old)) (Self.Server.pending server.old) (Self.Server.given server.old) (Self.Server.has_room server.old) }
        requires urb { IsUrb (Self.machine self.now) urb.0 }
        requires pending { IsPending (Self.machine self.now) (Self.known (Self.Server.own server.old)) urb.0 }
        requires unfinished { is_finished (state_of (Self.known (Self.Server.own server.old)).seen urb.0).mark ≡ false }
        ensures here { Self.is_of self.now (Self.Server.own server.new) }
        ensures whole { IsWholeServer (Self.machine self.now) (Self.known (Self.Server.own server.new)) (Self.Server.pending server.new) (Self.Server.given server.new) (Self.Server.has_room server.new) }
        ensures looked { Looked (Self.machine self.now) (Self.known (Self.Server.own server.old)) (Self.known (Self.Server.own server.new)) }
        ensures finds { Finds (state_of (Self.known (Self.Server.own server.new)).seen urb.0).mark result (is_marked_soon self.now (Self.Server.own server.old) (Self.Server.own server.new) urb.0) }
        ensures settled { IfMarked result (is_settled self.now server.new urb.0) };

    /// Marks the first pending URB as finished, where no mark stands.
    fn finish<R: Wait>(&self, rt: &R, server: &mut Self::Server, urb: UrbId, code: Code) -> bool
        requires here { Self.is_of self.now (Self.Server.own server.old) }
        requires whole { IsWholeServer (Self.machine self.now) (Self.known (Self.Server.own server.old)) (Self.Server.pending server.old) (Self.Server.given server.old) (Self.Server.has_room server.old) }
        requires urb { IsUrb (Self.machine self.now) urb.0 }
        requires first { IsFirst urb.0 (pending_of (Self.machine self.now) (Self.known (Self.Server.own server.old)).mine (home_of (Self.machine self.now) urb.0)) }
        ensures here { Self.is_of self.now (Self.Server.own server.new) }
        ensures whole { IsWholeServer (Self.machine self.now) (Self.known (Self.Server.own server.new)) (Self.Server.pending server.new) (Self.Server.given server.new) (Self.Server.has_room server.new) }
        ensures fresh { Fresh (Self.machine self.now) (Self.known (Self.Server.own server.old)) (Self.known (Self.Server.own server.new)) (entry (Self.known (Self.Server.own server.old)).number (Finish urb code) (Truth result) None ∷ []) }
        ensures settled { IsTrue result → is_settled self.now server.new urb.0 };

    /// Gives a pending URB back, of which a finish answered true or a look found the mark.
    fn give<R: Wait>(
        &self,
        rt: &R,
        server: &mut Self::Server,
        urb: UrbId,
        t: Transfer,
    ) -> Self::Given
        requires here { Self.is_of self.now (Self.Server.own server.old) }
        requires whole { IsWholeServer (Self.machine self.now) (Self.known (Self.Server.own server.old)) (Self.Server.pending server.old) (Self.Server.given server.old) (Self.Server.has_room server.old) }
        requires urb { IsUrb (Self.machine self.now) urb.0 }
        requires pending { IsPending (Self.machine self.now) (Self.known (Self.Server.own server.old)) urb.0 }
        requires settled { is_settled self.now server.old urb.0 }
        requires taken { WasSent (Self.known (Self.Server.own server.old)).seen urb.0 t.number }
        requires few { Self.Server.given server.old < 2 ^ 63 }
        ensures here { Self.is_of self.now (Self.Server.own server.new) }
        ensures whole { IsWholeServer (Self.machine self.now) (Self.known (Self.Server.own server.new)) (Self.Server.pending server.new) (Self.Server.given server.new) (Self.Server.has_room server.new) }
        ensures fresh { Fresh (Self.machine self.now) (Self.known (Self.Server.own server.old)) (Self.known (Self.Server.own server.new)) (entry (Self.known (Self.Server.own server.old)).number (Give urb) (Status (Self.Given.told result).code) None ∷ []) }
        ensures given { ((Self.Given.told result).urb ≡ urb.0) × ((Self.Given.told result).transfer ≡ Some t) };

    /// Leaves a transfer to rest with a given URB, by its handler.
    fn rest<R: Wait>(&self, rt: &R, server: &mut Self::Server, given: &mut Self::Given, t: Transfer)
        requires here { Self.is_of self.now (Self.Server.own server.old) }
        requires whole { IsWholeServer (Self.machine self.now) (Self.known (Self.Server.own server.old)) (Self.Server.pending server.old) (Self.Server.given server.old) (Self.Server.has_room server.old) }
        requires urb { IsUrb (Self.machine self.now) (Self.Given.told given.old).urb }
        requires runs { 0 < (state_of (Self.known (Self.Server.own server.old)).seen (Self.Given.told given.old).urb).handlers }
        requires transfer { HasWindow t }
        ensures here { Self.is_of self.now (Self.Server.own server.new) }
        ensures whole { IsWholeServer (Self.machine self.now) (Self.known (Self.Server.own server.new)) (Self.Server.pending server.new) (Self.Server.given server.new) (Self.Server.has_room server.new) }
        ensures fresh { Fresh (Self.machine self.now) (Self.known (Self.Server.own server.old)) (Self.known (Self.Server.own server.new)) (entry (Self.known (Self.Server.own server.old)).number (Rest record { 0 = (Self.Given.told given.old).urb } t.number) Nothing (Some t) ∷ []) }
        ensures given { Self.Given.told given.new ≡ Self.Given.told given.old };

    /// Ends the handler of a given URB.
    fn end<R: Wait>(&self, rt: &R, server: &mut Self::Server, given: Self::Given)
        requires here { Self.is_of self.now (Self.Server.own server.old) }
        requires whole { IsWholeServer (Self.machine self.now) (Self.known (Self.Server.own server.old)) (Self.Server.pending server.old) (Self.Server.given server.old) (Self.Server.has_room server.old) }
        requires urb { IsUrb (Self.machine self.now) (Self.Given.told given).urb }
        requires runs { 0 < (state_of (Self.known (Self.Server.own server.old)).seen (Self.Given.told given).urb).handlers }
        ensures here { Self.is_of self.now (Self.Server.own server.new) }
        ensures whole { IsWholeServer (Self.machine self.now) (Self.known (Self.Server.own server.new)) (Self.Server.pending server.new) (Self.Server.given server.new) (Self.Server.has_room server.new) }
        ensures fresh { Fresh (Self.machine self.now) (Self.known (Self.Server.own server.old)) (Self.known (Self.Server.own server.new)) (plain_entry (Self.known (Self.Server.own server.old)).number (End record { 0 = (Self.Given.told given).urb }) ∷ []) };
}
