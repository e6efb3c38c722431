//! Completion handlers, and the side of a host on which they run.
ghost use Rattle.std.specs.Prelude.{ℕ, ◌≡◌, List, Option, Some, None, Result, IfOk, IfSome, Contains};
ghost use Rattle.usb_types.specs.declared.urb.UrbId.{UrbId};
ghost use Rattle.usb_types.specs.declared.urb.Action.{Action};
ghost use Rattle.usb_types.specs.declared.errno.Code.{Code};
ghost use Rattle.usb_types.specs.declared.errno.Errno.{Errno};
ghost use Rattle.usb_types.specs.declared.outside.Memory.{Memory};
ghost use Rattle.usb_machine.specs.declared.transfer.Transfer.{Transfer};
ghost use Rattle.usb_machine.specs.Shapes.{HasWindow};
ghost use Rattle.usb_machine.specs.HostCalls.{HandsBack};
ghost use Rattle.usb_serve.specs.Handlers.{told_urb, Runs, StillRuns, FitsAgain, refusal_in};

use usb_machine::{GivenBack, Refused, Transfer};
use usb_types::{Action, Code, Memory, UrbId};

/// What a completion handler did with the transfer: it rests, it was submitted again with this answer, or it rests and the
/// driver's question was submitted with this answer.
#[derive(Clone, Copy)]
pub enum Outcome {
    Rested,
    Again(Code),
    Asked(Code),
}

/// What a driver does where its URBs come back.
pub trait Handler {
    // The URBs that it may ask with.
    ghost asks_with: { Self → List ℕ };

    // The question that it asked last, while no other call has come since.
    ghost question: { Self → Option Transfer };

    // What it answers to an URB that came back, and what it is afterwards.
    ghost completes: { Self → UrbId → Code → Transfer → Result Action Memory → Self → Type 0 };

    // What it asks, and what it is afterwards.
    ghost asks: { Self → Option (UrbId × Transfer) → Self → Type 0 };

    // What it is after its question was refused.
    ghost unasks: { Self → Transfer → Self → Type 0 };

    /// Says what becomes of the transfer of an URB that came back with this status.
    fn complete(&mut self, urb: UrbId, code: Code, t: &Transfer) -> Result<Action, Memory>
        requires { HasWindow t.now }
        ensures completes { completes self.old urb code t.now result self.new }
        ensures again { IfOk result (FitsAgain t.now) }
        ensures urbs { asks_with self.new ≡ asks_with self.old };

    /// The driver's question, if it has one to ask: its URB and its transfer, of which nothing is moved.
    fn ask(&mut self) -> Option<(UrbId, Transfer)>
        ensures asks { asks self.old result self.new }
        ensures asked { IfSome result (λ q. Contains (asks_with self.new) q.0.0 × HasWindow q.1 × (q.1.actual ≡ 0) × (question self.new ≡ Some q.1)) }
        ensures urbs { asks_with self.new ≡ asks_with self.old };

    /// Takes the last question back, whose submit was refused.
    fn unask(&mut self, t: Transfer)
        requires { question self.old ≡ Some t }
        ensures unasks { unasks self.old t self.new }
        ensures urbs { asks_with self.new ≡ asks_with self.old };
}

/// The side of a host on which handlers run: the three steps of a handler.
pub trait HandlerSide {
    type Given: GivenBack;

    // What the side knows of handlers and URBs.
    ghost runs: { Self → Runs };

    // What the side is after a transfer was left to rest.
    ghost rests: { Self → UrbId → Transfer → Self → Type 0 };

    // What it is after a submit, with the errno that refused it.
    ghost submits: { Self → UrbId → Transfer → Option Errno → Self → Type 0 };

    // What it is after a handler's end.
    ghost ends: { Self → UrbId → Self → Type 0 };

    /// Leaves a transfer to rest with an URB that was given back.
    fn rest(&mut self, given: &mut Self::Given, t: Transfer)
        requires whole { (runs self.old).is_whole }
        requires handles { (runs self.old).handles (Self.Given.told given.old).urb }
        requires window { HasWindow t }
        ensures rests { rests self.old (told_urb (Self.Given.told given.old)) t self.new }
        ensures given { Self.Given.told given.new ≡ Self.Given.told given.old }
        ensures still { StillRuns (runs self.old) (runs self.new) };

    /// Submits a transfer. One that is refused is handed back.
    fn submit(&mut self, urb: UrbId, t: Transfer) -> Result<(), Refused>
        requires whole { (runs self.old).is_whole }
        requires home { (runs self.old).has_home urb.0 }
        requires transfer { HasWindow t × (t.actual ≡ 0) }
        ensures submits { submits self.old urb t (refusal_in result) self.new }
        ensures back { HandsBack t result }
        ensures still { StillRuns (runs self.old) (runs self.new) };

    /// Ends the handler of an URB that was given back.
    fn end(&mut self, given: Self::Given)
        requires whole { (runs self.old).is_whole }
        requires handles { (runs self.old).handles (Self.Given.told given).urb }
        ensures whole { (runs self.new).is_whole }
        ensures ends { ends self.old (told_urb (Self.Given.told given)) self.new };
}
