//! The side of a host that its server works on: what a controller asks of it, and what it answers.
ghost use Rattle.std.specs.Prelude.{ℕ, ◌≡◌, ◌<◌, [], ◌∷◌, ◌++◌, List, length, Option, IfSome, IsTrue, ◌↔◌, true, false, Contains};
ghost use Rattle.usb_types.specs.declared.urb.UrbId.{UrbId};
ghost use Rattle.usb_types.specs.declared.urb.Why.{Why};
ghost use Rattle.usb_types.specs.declared.errno.Code.{Code};
ghost use Rattle.usb_machine.specs.declared.transfer.Transfer.{Transfer};
ghost use Rattle.usb_machine.specs.Shapes.{HasWindow};
ghost use Rattle.usb_machine.specs.declared.host_answers.Look.{Look};
ghost use Rattle.usb_machine.specs.declared.host_answers.Look.TheVariants.{Clean, Marked};
ghost use Rattle.usb_serve.specs.Knows.{Knows, IsPending, SamePending, Keeps, FinishesNone, FinishesOnly, pending_with, Takes, Leaves};

use usb_machine::{Look, Transfer};
use usb_types::{Code, UrbId};

/// The server's side of a host: a host with its server, or a machine with its transfers.
pub trait Side {
    /// An URB that was given back, with its status and its transfer.
    type Given;

    // What the side knows of its endpoints and URBs.
    ghost knows: { Self → Knows };

    // What a take at an endpoint answers, and what the side is afterwards.
    ghost takes: { Self → ℕ → Option (UrbId × Transfer) → Self → Type 0 };

    // What a look at an URB answers, and what the side is afterwards.
    ghost looks: { Self → UrbId → Look → Self → Type 0 };

    // The same of a finish with a code.
    ghost finishes: { Self → UrbId → Code → Bool → Self → Type 0 };

    // The same of a giveback with a transfer.
    ghost gives: { Self → UrbId → Transfer → Self.Given → Self → Type 0 };

    ghost use Rattle.std.specs.Prelude.{Bool};

    /// Takes the first URB of an endpoint's line, with the transfer that was submitted.
    fn take(&mut self, ep: u32) -> Option<(UrbId, Transfer)>
        requires whole { (knows self.old).is_whole }
        requires end { ep < length (knows self.old).layout.shapes }
        ensures whole { (knows self.new).is_whole }
        ensures takes { takes self.old ep result self.new }
        ensures pending { (e : ℕ) → (knows self.new).pending e ≡ pending_with ep result e ((knows self.old).pending e) }
        ensures taken { IfSome result (λ r. Takes (knows self.new) ep r.0.0 r.1) }
        ensures keeps { Keeps (knows self.old) (knows self.new) }
        ensures none { FinishesNone (knows self.old) (knows self.new) }
        ensures room { (knows self.old).may_give → (knows self.new).may_give }
        ensures no_room { (knows self.new).may_give → (knows self.old).may_give };

    /// Looks at the mark of a pending URB that is not finished.
    fn look(&mut self, urb: UrbId) -> Look
        requires whole { (knows self.old).is_whole }
        requires pending { IsPending (knows self.old) urb.0 }
        requires unfinished { (knows self.old).is_finished urb.0 → ⊥ }
        ensures whole { (knows self.new).is_whole }
        ensures looks { looks self.old urb result self.new }
        ensures pending { SamePending (knows self.old) (knows self.new) }
        ensures clean { result ≡ Clean → (knows self.old).is_marked urb.0 → ⊥ }
        ensures marked { (why : Why) → result ≡ Marked why → (knows self.new).is_settled urb.0 }
        ensures keeps { Keeps (knows self.old) (knows self.new) }
        ensures none { FinishesNone (knows self.old) (knows self.new) }
        ensures room { (knows self.old).may_give → (knows self.new).may_give }
        ensures no_room { (knows self.new).may_give → (knows self.old).may_give };

    /// Marks the first pending URB of an endpoint as finished, where no mark stands. An unlink may have come since the URB
    /// was looked at.
    fn finish(&mut self, urb: UrbId, code: Code) -> bool
        requires whole { (knows self.old).is_whole }
        requires first { (e : ℕ) × (others : List ℕ) × ((knows self.old).pending e ≡ urb.0 ∷ others) }
        requires unfinished { (knows self.old).is_finished urb.0 → ⊥ }
        ensures whole { (knows self.new).is_whole }
        ensures finishes { finishes self.old urb code result self.new }
        ensures pending { SamePending (knows self.old) (knows self.new) }
        ensures settled { result ≡ true → (knows self.new).is_settled urb.0 }
        ensures unmarked { result ≡ true → (knows self.old).is_marked urb.0 → ⊥ }
        ensures late { result ≡ false → (knows self.new).is_marked urb.0 × FinishesNone (knows self.old) (knows self.new) }
        ensures keeps { Keeps (knows self.old) (knows self.new) }
        ensures only { FinishesOnly urb.0 (knows self.old) (knows self.new) }
        ensures room { (knows self.old).may_give → (knows self.new).may_give }
        ensures no_room { (knows self.new).may_give → (knows self.old).may_give };

    /// Gives a pending URB back whose status is settled: its finish answered true, or it looked marked.
    fn give(&mut self, urb: UrbId, t: Transfer) -> Self::Given
        requires whole { (knows self.old).is_whole }
        requires room { (knows self.old).may_give }
        requires pending { IsPending (knows self.old) urb.0 }
        requires settled { (knows self.old).is_settled urb.0 }
        requires taken { (start : Transfer) × (knows self.old).was_sent urb.0 start × (t.number ≡ start.number) }
        requires window { HasWindow t }
        ensures whole { (knows self.new).is_whole }
        ensures gives { gives self.old urb t result self.new }
        ensures leaves { Leaves (knows self.old) (knows self.new) urb.0 }
        ensures keeps { Keeps (knows self.old) (knows self.new) }
        ensures none { FinishesNone (knows self.old) (knows self.new) };

    /// Whether one more URB may be given back.
    fn may_give(&self) -> bool
        requires { (knows self.now).is_whole }
        ensures { IsTrue result ↔ (knows self.now).may_give };
}
