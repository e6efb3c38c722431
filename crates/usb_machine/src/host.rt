//! A host of URBs, as each of its callers sees it.
ghost use Rattle.std.specs.Prelude.{◌≡◌, ℕ, ◌<◌, [], ◌∷◌, false, true, MatchBool, List, Option, None};
ghost use Rattle.usb_types.specs.declared.errno.Code.TheVariants.{Fault};
ghost use Rattle.usb_machine.specs.declared.event.Event.TheVariants.{Reject, Withdraw, Quiet, Claim, Flag as FlagEvent, Unflag};
ghost use Rattle.usb_machine.specs.declared.event.Answer.TheVariants.{Number};
ghost use Rattle.usb_machine.specs.declared.entry.Entry.{Entry};
ghost use Rattle.usb_machine.specs.declared.transfer.Transfer.{Transfer};
ghost use Rattle.usb_machine.specs.State.{has_flag};
ghost use Rattle.usb_machine.specs.Shapes.{HasWindow};
ghost use Rattle.usb_machine.specs.History.{Machine, HasHome};
ghost use Rattle.usb_machine.specs.Parts.{held_of, keeps};
ghost use Rattle.usb_machine.specs.Calls.{entry, plain_entry, mark_entry};
ghost use Rattle.usb_machine.specs.Tokens.{IsWholeHub};
ghost use Rattle.usb_machine.specs.Fresh.{Known, Fresh, Looked};
ghost use Rattle.usb_machine.specs.HostCalls.{IsUrb, RestedBeforeLast, number_of, HandsBack, Submitted, fault_at, shape_of};

use crate::host_answers::Refused;
use crate::tokens::HubToken;
use crate::transfer::Transfer;
use std::sync::Wait;
use usb_types::{Errno, Flag, UrbId, Why};

/// A host of URBs that callers share, each with a pass of its own. Each answer is that of one legal history, which begins
/// with all that the caller's pass had seen and ends with the call. Other passes' entries may stand between.
pub trait Host: Drop {
    type Pass: Drop + Send;

    type Hub: HubToken<Pass = Self::Pass>;

    ghost use Rattle.std.specs.Prelude.{ℕ, List};
    ghost use Rattle.usb_machine.specs.declared.entry.Entry.{Entry};
    ghost use Rattle.usb_machine.specs.History.{Machine};
    ghost use Rattle.usb_machine.specs.Fresh.{Known, Sound};

    /// The machine of the host's layout and of its passes.
    ghost machine: { Self → Machine };

    /// What a pass knows.
    ghost known: { Self.Pass → Known };

    /// The pass is one of this host's.
    ghost is_of: { Self → Self.Pass → Type 0 };

    /// Why the URB was not seen quiet, by the pass before the call and after it.
    ghost is_busy: { Self → Self.Pass → Self.Pass → ℕ → Type 0 };

    /// Submits the transfer, and links the URB where it was accepted.
    fn submit<R: Wait>(
        &self,
        rt: &R,
        pass: &mut Self::Pass,
        urb: UrbId,
        t: Transfer,
    ) -> Result<(), Refused>
        requires here { is_of self.now pass.old }
        requires home { HasHome (machine self.now) urb.0 }
        requires transfer { HasWindow t × (t.actual ≡ 0) }
        ensures here { is_of self.now pass.new }
        ensures fresh { Submitted (machine self.now) (known pass.old) (known pass.new) urb.0 t (fault_at (shape_of (machine self.now) urb.0) t) result }
        ensures back { HandsBack t result };

    /// Marks the URB as unlinked.
    fn unlink<R: Wait>(&self, rt: &R, pass: &mut Self::Pass, urb: UrbId, why: Why) -> Errno
        requires here { is_of self.now pass.old }
        requires urb { IsUrb (machine self.now) urb.0 }
        ensures here { is_of self.now pass.new }
        ensures fresh { Fresh (machine self.now) (known pass.old) (known pass.new) (mark_entry (known pass.old).number why urb.0 (Fault result) ∷ []) };

    /// Raises a reject of the URB.
    fn reject<R: Wait>(&self, rt: &R, pass: &mut Self::Pass, urb: UrbId)
        requires here { is_of self.now pass.old }
        requires urb { IsUrb (machine self.now) urb.0 }
        requires room { (held_of (known pass.old).mine urb.0).rejects < 255 }
        ensures here { is_of self.now pass.new }
        ensures fresh { Fresh (machine self.now) (known pass.old) (known pass.new) (plain_entry (known pass.old).number (Reject urb) ∷ []) };

    /// Withdraws a reject of the URB.
    fn withdraw<R: Wait>(&self, rt: &R, pass: &mut Self::Pass, urb: UrbId)
        requires here { is_of self.now pass.old }
        requires urb { IsUrb (machine self.now) urb.0 }
        requires held { 0 < (held_of (known pass.old).mine urb.0).rejects }
        ensures here { is_of self.now pass.new }
        ensures fresh { Fresh (machine self.now) (known pass.old) (known pass.new) (plain_entry (known pass.old).number (Withdraw urb) ∷ []) };

    /// Sees the URB quiet, or says that it is busy.
    fn quiet<R: Wait>(&self, rt: &R, pass: &mut Self::Pass, urb: UrbId) -> bool
        requires here { is_of self.now pass.old }
        requires urb { IsUrb (machine self.now) urb.0 }
        ensures here { is_of self.now pass.new }
        ensures fresh { MatchBool result (Fresh (machine self.now) (known pass.old) (known pass.new) (plain_entry (known pass.old).number (Quiet urb) ∷ [])) (Looked (machine self.now) (known pass.old) (known pass.new) × is_busy self.now pass.old pass.new urb.0) };

    /// Takes the transfer that rests with the URB, which the pass keeps quiet.
    fn claim<R: Wait>(&self, rt: &R, pass: &mut Self::Pass, urb: UrbId) -> Option<Transfer>
        requires here { is_of self.now pass.old }
        requires urb { IsUrb (machine self.now) urb.0 }
        requires kept { keeps (known pass.old).mine urb.0 ≡ true }
        ensures here { is_of self.now pass.new }
        ensures fresh { Fresh (machine self.now) (known pass.old) (known pass.new) (entry (known pass.old).number (Claim urb) (Number (number_of result)) None ∷ []) }
        ensures rested { RestedBeforeLast (known pass.new).seen urb.0 result };

    /// Sets a flag.
    fn flag<R: Wait>(&self, rt: &R, hub: &mut Self::Hub, urb: UrbId, flag: Flag)
        requires here { is_of self.now (Self.Hub.own hub.old) }
        requires whole { IsWholeHub (machine self.now) (known (Self.Hub.own hub.old)) (Self.Hub.flags hub.old) (Self.Hub.has_room hub.old) }
        requires urb { IsUrb (machine self.now) urb.0 }
        requires unset { has_flag flag (Self.Hub.flags hub.old urb.0) ≡ false }
        ensures here { is_of self.now (Self.Hub.own hub.new) }
        ensures whole { IsWholeHub (machine self.now) (known (Self.Hub.own hub.new)) (Self.Hub.flags hub.new) (Self.Hub.has_room hub.new) }
        ensures fresh { Fresh (machine self.now) (known (Self.Hub.own hub.old)) (known (Self.Hub.own hub.new)) (plain_entry (known (Self.Hub.own hub.old)).number (FlagEvent urb flag) ∷ []) };

    /// Unsets a flag.
    fn unflag<R: Wait>(&self, rt: &R, hub: &mut Self::Hub, urb: UrbId, flag: Flag)
        requires here { is_of self.now (Self.Hub.own hub.old) }
        requires whole { IsWholeHub (machine self.now) (known (Self.Hub.own hub.old)) (Self.Hub.flags hub.old) (Self.Hub.has_room hub.old) }
        requires urb { IsUrb (machine self.now) urb.0 }
        requires set { has_flag flag (Self.Hub.flags hub.old urb.0) ≡ true }
        ensures here { is_of self.now (Self.Hub.own hub.new) }
        ensures whole { IsWholeHub (machine self.now) (known (Self.Hub.own hub.new)) (Self.Hub.flags hub.new) (Self.Hub.has_room hub.new) }
        ensures fresh { Fresh (machine self.now) (known (Self.Hub.own hub.old)) (known (Self.Hub.own hub.new)) (plain_entry (known (Self.Hub.own hub.old)).number (Unflag urb flag) ∷ []) };

    /// What a pass of the host has seen is legal, and its own entries are its part of that.
    ghost sound: { (h : Self) (p : Self.Pass) → is_of h p → Sound (machine h) (known p) };
}
