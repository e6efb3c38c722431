//! The host by turns: a stock that its passes take one after another.
ghost use Rattle.std.specs.Prelude.{◌≡◌, ℕ, ◌+◌, ◌<◌, slice_get, length, [], ◌∷◌, Some, None, MatchBool, true, All, map};
ghost use Rattle.usb_machine.specs.Calls.{entry};
ghost use Rattle.usb_machine.specs.Replay.{IsWithin};
ghost use Rattle.usb_machine.specs.Plain.{IsLayout};
ghost use Rattle.usb_machine.specs.declared.event.Event.TheVariants.{Submit, Quiet, Claim};
ghost use Rattle.usb_machine.specs.declared.event.Answer.TheVariants.{Code as Status, Number};
ghost use Rattle.usb_machine.specs.Calls.{plain_entry};
ghost use Rattle.usb_machine.specs.History.{HasHome};
ghost use Rattle.usb_machine.specs.Parts.{keeps};
ghost use Rattle.usb_machine.specs.Shapes.{HasWindow, Accepts};
ghost use Rattle.usb_machine.specs.HostCalls.{IsUrb, answer_of_submit, HandsBack, fault_at, shape_of, number_of, RestedBeforeLast};
ghost use Rattle.usb_turn_host.specs.Stock.{IsBusy};
ghost use Rattle.usb_machine.specs.Tokens.{AreAll, IsClosed};
ghost use Rattle.usb_machine.specs.Fresh.{Fresh, Looked};
ghost use Rattle.usb_turn.specs.Shown.{id_of, passes_of};
ghost use Rattle.usb_turn_host.specs.Setup.{setup_of};
ghost use Rattle.usb_turn_host.specs.Stock.{IsStill, machine_of};
ghost use Rattle.usb_turn_host.specs.Turning.{IsOf, MayLater, IsAnswered, known_of};

use crate::hub::TurnHub;
use crate::server::TurnServer;
use crate::stock::Stock;
use std::sync::Wait;
use usb_machine::{Answer, Event, Layout, Refused, Transfer, shape_fault};
use usb_turn::{Ended, TurnPass, Turns};
use usb_types::{Errno, UrbId};

/// A machine with its transfers, which callers use by turns.
#[derive(Drop)]
pub struct TurnHost {
    pub(crate) turns: Turns<Stock>,
    pub(crate) layout: Layout,
    ghost counted: { passes_of turns ≡ (setup_of turns).passes + 2 },
    ghost laid: { (setup_of turns).layout.value ≡ layout },
    ghost homed: { (u e : ℕ) → slice_get layout.homes u ≡ Some (Some e) → e < length layout.shapes },
}

impl TurnHost {
    /// Makes an event that moves no transfer, in a turn.
    pub(crate) fn make<R: Wait>(&self, rt: &R, pass: &mut TurnPass<Stock>, event: Event) -> Answer
        requires here { IsOf (id_of self.now.turns) (setup_of self.now.turns) pass.old }
        requires within { IsWithin (machine_of (setup_of self.now.turns)) event }
        requires still { IsStill event }
        requires may { MayLater (machine_of (setup_of self.now.turns)) (known_of pass.old) event }
        ensures here { IsOf (id_of self.now.turns) (setup_of self.now.turns) pass.new }
        ensures fresh { Fresh (machine_of (setup_of self.now.turns)) (known_of pass.old) (known_of pass.new) (entry pass.old.number event result None ∷ []) }
        ensures answered { IsAnswered (machine_of (setup_of self.now.turns)) (known_of pass.old) (known_of pass.new) event result (entry pass.old.number event result None) }
    {
        let mut stock = self.turns.enter(rt, pass);
        let answer = stock.make(pass.number(), event);
        self.turns.leave(pass, stock);
        answer
    }

    /// Sees the URB quiet, in a turn, if it is.
    pub(crate) fn see<R: Wait>(&self, rt: &R, pass: &mut TurnPass<Stock>, urb: UrbId) -> bool
        requires here { IsOf (id_of self.now.turns) (setup_of self.now.turns) pass.old }
        requires urb { IsUrb (machine_of (setup_of self.now.turns)) urb.0 }
        ensures here { IsOf (id_of self.now.turns) (setup_of self.now.turns) pass.new }
        ensures fresh { MatchBool result (Fresh (machine_of (setup_of self.now.turns)) (known_of pass.old) (known_of pass.new) (plain_entry pass.old.number (Quiet urb) ∷ [])) (Looked (machine_of (setup_of self.now.turns)) (known_of pass.old) (known_of pass.new) × IsBusy pass.new.seen urb.0) }
    {
        let mut stock = self.turns.enter(rt, pass);
        let found = stock.quiet(pass.number(), urb);
        self.turns.leave(pass, stock);
        found
    }

    /// Takes what rests with the URB, in a turn.
    pub(crate) fn take_rest<R: Wait>(
        &self,
        rt: &R,
        pass: &mut TurnPass<Stock>,
        urb: UrbId,
    ) -> Option<Transfer>
        requires here { IsOf (id_of self.now.turns) (setup_of self.now.turns) pass.old }
        requires urb { IsUrb (machine_of (setup_of self.now.turns)) urb.0 }
        requires kept { keeps pass.old.mine urb.0 ≡ true }
        ensures here { IsOf (id_of self.now.turns) (setup_of self.now.turns) pass.new }
        ensures fresh { Fresh (machine_of (setup_of self.now.turns)) (known_of pass.old) (known_of pass.new) (entry pass.old.number (Claim urb) (Number (number_of result)) None ∷ []) }
        ensures rested { RestedBeforeLast pass.new.seen urb.0 result }
    {
        let mut stock = self.turns.enter(rt, pass);
        let rested = stock.claim(pass.number(), urb);
        self.turns.leave(pass, stock);
        rested
    }

    /// Asks the gate of the URB, in a turn.
    pub(crate) fn ask<R: Wait>(
        &self,
        rt: &R,
        pass: &mut TurnPass<Stock>,
        urb: UrbId,
        t: Transfer,
    ) -> Result<(), Refused>
        requires here { IsOf (id_of self.now.turns) (setup_of self.now.turns) pass.old }
        requires home { HasHome (machine_of (setup_of self.now.turns)) urb.0 }
        requires transfer { HasWindow t × (t.actual ≡ 0) × Accepts (shape_of (machine_of (setup_of self.now.turns)) urb.0) t }
        ensures here { IsOf (id_of self.now.turns) (setup_of self.now.turns) pass.new }
        ensures fresh { Fresh (machine_of (setup_of self.now.turns)) (known_of pass.old) (known_of pass.new) (entry pass.old.number (Submit urb t.number) (Status (answer_of_submit result)) (Some t) ∷ []) }
        ensures back { HandsBack t result }
    {
        let mut stock = self.turns.enter(rt, pass);
        let asked = stock.submit(pass.number(), urb, t);
        self.turns.leave(pass, stock);
        asked
    }

    /// Why the URB's home does not take the transfer, if it does not.
    pub(crate) fn fault(&self, urb: UrbId, t: &Transfer) -> Option<Errno>
        requires { HasHome (machine_of (setup_of self.now.turns)) urb.0 }
        ensures { result ≡ fault_at (shape_of (machine_of (setup_of self.now.turns)) urb.0) t.now }
    {
        match self.layout.homes.items()[urb.0 as usize] {
            Some(ep) => shape_fault(&self.layout.shapes.items()[ep as usize], t),
            None => None,
        }
    }

    /// Ends the host, with all its tokens and passes in hand.
    pub fn end_all(
        self,
        server: TurnServer,
        hub: TurnHub,
        passes: Vec<TurnPass<Stock>>,
    ) -> Ended<Stock>
        requires server { IsOf (id_of self.turns) (setup_of self.turns) server.pass }
        requires hub { IsOf (id_of self.turns) (setup_of self.turns) hub.pass }
        requires passes { All (IsOf (id_of self.turns) (setup_of self.turns)) passes.items }
        requires all { AreAll (machine_of (setup_of self.turns)) (known_of server.pass ∷ known_of hub.pass ∷ map known_of passes.items) }
        ensures { IsClosed (machine_of (setup_of self.turns)) result (known_of server.pass ∷ known_of hub.pass ∷ map known_of passes.items) }
    {
        let TurnHost { turns, layout: _ } = self;
        let TurnServer {
            pass: first,
            pending: _,
            given: _,
        } = server;
        let TurnHub {
            pass: second,
            flags: _,
        } = hub;
        turns.end(first, second, passes)
    }
}
