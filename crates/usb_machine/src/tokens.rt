//! Tokens: passes that are one of a kind, with what each stores of its own entries.
ghost use Rattle.std.specs.Prelude.{◌≡◌, ◌<◌, ◌^◌, ◌↔◌, IsTrue, MatchOption, Some, None};
ghost use Rattle.std.specs.Borrow.{Lends, sem};
ghost use Rattle.usb_machine.specs.State.{has_flag};
ghost use Rattle.usb_machine.specs.Tokens.{first_of};

use crate::transfer::Transfer;
use usb_types::{Code, Flag, UrbId};

/// A token that lends its own pass.
pub trait Token: Drop + Send {
    type Pass;

    /// The token's pass.
    ghost own: { Self → Self.Pass };

    /// The token with another pass in its place.
    ghost with_own: { Self → Self.Pass → Self };

    fn pass(&mut self) -> &mut Self::Pass
        ensures* writes_back { sem 𝓛 (Lends Self.row Self.Pass.row self.entry result (with_own self.old)) }
        ensures value { result.now ≡ own self.old };

    /// The pass that was put there is there.
    ghost puts: { (t : Self) (p : Self.Pass) → own (with_own t p) ≡ p };
}

/// The hub's token. It stores the flags that it has set.
pub trait HubToken: Token {
    ghost use Rattle.std.specs.Prelude.{ℕ};
    ghost use Rattle.usb_machine.specs.declared.state.Flags.{Flags};
    ghost use Rattle.usb_machine.specs.History.{Machine};

    /// The flags that it stores of an URB.
    ghost flags: { Self → ℕ → Flags };

    /// It has room for the URBs of the machine.
    ghost has_room: { Self → Machine → Type 0 };

    fn flagged(&self, urb: UrbId, flag: Flag) -> bool
        ensures { result ≡ has_flag flag (flags self.now urb.0) };

    /// Another pass leaves the flags.
    ghost keeps_flags: { (t : Self) (p : Self.Pass) (u : ℕ) → flags (Self.with_own t p) u ≡ flags t u };

    ghost keeps_room: { (t : Self) (p : Self.Pass) (g : Machine) → has_room t g → has_room (Self.with_own t p) g };
}

/// The server's token. It stores its pending lists and how often it gave back.
pub trait ServerToken: Token {
    ghost use Rattle.std.specs.Prelude.{ℕ, List};
    ghost use Rattle.usb_machine.specs.History.{Machine};

    /// The pending URBs that it stores of an endpoint.
    ghost pending: { Self → ℕ → List ℕ };

    /// How many Gives it has counted.
    ghost given: { Self → ℕ };

    /// It has room for the endpoints and URBs of the machine.
    ghost has_room: { Self → Machine → Type 0 };

    fn first(&self, ep: u32) -> Option<UrbId>
        ensures { result ≡ first_of (pending self.now ep) };

    fn may_give(&self) -> bool
        ensures { IsTrue result ↔ (given self.now < 2 ^ 63) };

    /// Another pass leaves what is stored.
    ghost keeps_pending: { (t : Self) (p : Self.Pass) (e : ℕ) → pending (Self.with_own t p) e ≡ pending t e };

    ghost keeps_given: { (t : Self) (p : Self.Pass) → given (Self.with_own t p) ≡ given t };

    ghost keeps_room: { (t : Self) (p : Self.Pass) (g : Machine) → has_room t g → has_room (Self.with_own t p) g };
}

/// An URB that was given back, until its handler has ended.
pub trait GivenBack: Drop + Send {
    ghost use Rattle.usb_machine.specs.Tokens.{Told};

    /// What it tells.
    ghost told: { Self → Told };

    fn urb(&self) -> UrbId
        ensures { result.0 ≡ (told self.now).urb };

    fn code(&self) -> Code
        ensures { result ≡ (told self.now).code };

    fn transfer(&self) -> Option<&Transfer>
        ensures { MatchOption result ((told self.now).transfer ≡ None) (λ t. (told self.now).transfer ≡ Some t.now) };

    fn take_transfer(&mut self) -> Option<Transfer>
        ensures taken { result ≡ (told self.old).transfer }
        ensures rest { told self.new ≡ record { urb = (told self.old).urb; code = (told self.old).code; transfer = None } };
}
