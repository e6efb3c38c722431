//! Anchors that threads use by turns: each call is one turn.
ghost use Rattle.std.specs.Prelude.{◌≡◌, ◌≤◌, [], vec_capacity};
ghost use Rattle.usb_turn.specs.Shown.{passes_of};

use crate::rack::Rack;
use crate::rejects::{raise_if, withdraw_all};
use std::sync::Wait;
use usb_anchor::AddFault;
use usb_machine::{Host, Meets};
use usb_turn::{TurnPass, Turns};
use usb_types::UrbId;

/// Anchors that callers use by turns.
#[derive(Drop)]
pub struct Anchors<H: Host> {
    pub(crate) turns: Turns<Rack<H>>,
    /// Room for the passes at the end, which takes no memory.
    pub(crate) room: Vec<TurnPass<Rack<H>>>,
    ghost roomy: { (room.items ≡ []) × (passes_of turns ≤ vec_capacity room) },
}

/// A caller's right to use the anchors, so many times.
#[derive(Drop)]
pub struct AnchorPass<H: Host> {
    pub(crate) turn: TurnPass<Rack<H>>,
    pub(crate) left: u32,
}

impl<H: Host> AnchorPass<H> {
    ghost use Rattle.std.specs.Prelude.{◌≡◌};

    /// How many calls its caller may still make.
    pub fn left(&self) -> u32
        ensures { result ≡ self.now.left }
    {
        self.left
    }
}

impl<H: Meets> Anchors<H> {
    ghost use Rattle.std.specs.Prelude.{◌≡◌, ◌+◌, ◌<◌, ◌≤◌, ℕ, Some, None, cond};
    ghost use Rattle.usb_turn.specs.Shown.{id_of};
    ghost use Rattle.usb_anchors.specs.Opened.{key_of};
    ghost use Rattle.usb_anchors.specs.Host.{Sees, rejects_by};
    ghost use Rattle.usb_anchor.specs.Log.{row};
    ghost use Rattle.usb_anchor.specs.Core.{busy_of};
    ghost use Rattle.usb_anchor.specs.declared.log.TheConstants.{ADD, OFF, FIRST, UNPOISON_ALL, SCUTTLE, IS_EMPTY};
    ghost use Rattle.usb_anchors.specs.Rack.{sized};
    ghost use Rattle.usb_anchors.specs.Told.{IsCaller, IsServer, Told, Gives};

    /// Puts an URB last on an anchor. It is refused where the URB is on an anchor.
    pub fn add<R: Wait>(
        &self,
        rt: &R,
        host: &H,
        by: &mut AnchorPass<H>,
        pass: &mut H::Pass,
        anchor: u32,
        urb: UrbId,
    ) -> Result<(), AddFault>
        requires by { IsCaller (id_of self.now.turns) (key_of self.now.turns) by.old.turn by.old.left }
        requires left { 0 < by.old.left }
        requires anchor { anchor < (key_of self.now.turns).anchors }
        requires urb { urb.0 < (key_of self.now.turns).urbs }
        requires host { H.is_of host.now pass.old × ((key_of self.now.turns).host.value ≡ host.now) }
        ensures by { IsCaller (id_of self.now.turns) (key_of self.now.turns) by.new.turn by.new.left }
        ensures left { by.new.left + 1 ≡ by.old.left }
        ensures told { (from : ℕ) × Told (sized (key_of self.now.turns)) by.old.turn by.new.turn (row by.old.turn.number ADD (Some anchor) (Some urb) (busy_of result) from 0) }
        ensures host { H.is_of host.now pass.new }
        ensures sees { Sees (H.known (key_of self.now.turns).first.value).number (H.known pass.old) (H.known pass.new) (rejects_by (H.known (key_of self.now.turns).first.value).number (key_of self.now.turns).urbs by.new.turn.seen) }
    {
        let mut rack = self.turns.enter(rt, &mut by.turn);
        host.meet(rt, &mut rack.pass, pass);
        let was = rack.core.holds(anchor, urb);
        let answer = rack.core.add(by.turn.number(), anchor, urb);
        let is = rack.core.holds(anchor, urb);
        raise_if(rt, host, &mut rack.pass, urb, was, is);
        rack.core.know();
        rack.grew = true;
        host.meet(rt, pass, &mut rack.pass);
        self.turns.leave(&mut by.turn, rack);
        by.left -= 1;
        answer
    }

    /// Takes an URB off its anchor, and answers which it was.
    pub fn off<R: Wait>(
        &self,
        rt: &R,
        host: &H,
        by: &mut AnchorPass<H>,
        pass: &mut H::Pass,
        urb: UrbId,
    ) -> Option<u32>
        requires by { IsCaller (id_of self.now.turns) (key_of self.now.turns) by.old.turn by.old.left }
        requires left { 0 < by.old.left }
        requires urb { urb.0 < (key_of self.now.turns).urbs }
        requires host { H.is_of host.now pass.old × ((key_of self.now.turns).host.value ≡ host.now) }
        ensures by { IsCaller (id_of self.now.turns) (key_of self.now.turns) by.new.turn by.new.left }
        ensures left { by.new.left + 1 ≡ by.old.left }
        ensures told { (from : ℕ) × Told (sized (key_of self.now.turns)) by.old.turn by.new.turn (row by.old.turn.number OFF result (Some urb) None from 0) }
        ensures host { H.is_of host.now pass.new }
        ensures sees { Sees (H.known (key_of self.now.turns).first.value).number (H.known pass.old) (H.known pass.new) (rejects_by (H.known (key_of self.now.turns).first.value).number (key_of self.now.turns).urbs by.new.turn.seen) }
    {
        let mut rack = self.turns.enter(rt, &mut by.turn);
        host.meet(rt, &mut rack.pass, pass);
        let answer = rack.core.off(by.turn.number(), urb);
        rack.core.know();
        rack.grew = true;
        host.meet(rt, pass, &mut rack.pass);
        self.turns.leave(&mut by.turn, rack);
        by.left -= 1;
        answer
    }

    /// Takes the head off an anchor.
    pub fn first<R: Wait>(
        &self,
        rt: &R,
        host: &H,
        by: &mut AnchorPass<H>,
        pass: &mut H::Pass,
        anchor: u32,
    ) -> Option<UrbId>
        requires by { IsCaller (id_of self.now.turns) (key_of self.now.turns) by.old.turn by.old.left }
        requires left { 0 < by.old.left }
        requires anchor { anchor < (key_of self.now.turns).anchors }
        requires host { H.is_of host.now pass.old × ((key_of self.now.turns).host.value ≡ host.now) }
        ensures by { IsCaller (id_of self.now.turns) (key_of self.now.turns) by.new.turn by.new.left }
        ensures left { by.new.left + 1 ≡ by.old.left }
        ensures told { (from : ℕ) × Told (sized (key_of self.now.turns)) by.old.turn by.new.turn (row by.old.turn.number FIRST (Some anchor) result None from 0) }
        ensures host { H.is_of host.now pass.new }
        ensures sees { Sees (H.known (key_of self.now.turns).first.value).number (H.known pass.old) (H.known pass.new) (rejects_by (H.known (key_of self.now.turns).first.value).number (key_of self.now.turns).urbs by.new.turn.seen) }
    {
        let mut rack = self.turns.enter(rt, &mut by.turn);
        host.meet(rt, &mut rack.pass, pass);
        let answer = rack.core.first(by.turn.number(), anchor);
        rack.core.know();
        rack.grew = true;
        host.meet(rt, pass, &mut rack.pass);
        self.turns.leave(&mut by.turn, rack);
        by.left -= 1;
        answer
    }

    /// The anchor is poisoned no more.
    pub fn unpoison_all<R: Wait>(
        &self,
        rt: &R,
        host: &H,
        by: &mut AnchorPass<H>,
        pass: &mut H::Pass,
        anchor: u32,
    )
        requires by { IsCaller (id_of self.now.turns) (key_of self.now.turns) by.old.turn by.old.left }
        requires left { 0 < by.old.left }
        requires anchor { anchor < (key_of self.now.turns).anchors }
        requires host { H.is_of host.now pass.old × ((key_of self.now.turns).host.value ≡ host.now) }
        ensures by { IsCaller (id_of self.now.turns) (key_of self.now.turns) by.new.turn by.new.left }
        ensures left { by.new.left + 1 ≡ by.old.left }
        ensures told { (from : ℕ) × Told (sized (key_of self.now.turns)) by.old.turn by.new.turn (row by.old.turn.number UNPOISON_ALL (Some anchor) None None from 0) }
        ensures host { H.is_of host.now pass.new }
        ensures sees { Sees (H.known (key_of self.now.turns).first.value).number (H.known pass.old) (H.known pass.new) (rejects_by (H.known (key_of self.now.turns).first.value).number (key_of self.now.turns).urbs by.new.turn.seen) }
    {
        let mut rack = self.turns.enter(rt, &mut by.turn);
        host.meet(rt, &mut rack.pass, pass);
        rack.core
            .unpoison_all_telling(by.turn.number(), anchor, &mut rack.raised);
        withdraw_all(rt, host, &mut rack.pass, rack.raised.list());
        rack.core.know();
        rack.grew = true;
        host.meet(rt, pass, &mut rack.pass);
        self.turns.leave(&mut by.turn, rack);
        by.left -= 1;
    }

    /// Empties an anchor's list, and does nothing else.
    pub fn scuttle<R: Wait>(
        &self,
        rt: &R,
        host: &H,
        by: &mut AnchorPass<H>,
        pass: &mut H::Pass,
        anchor: u32,
    )
        requires by { IsCaller (id_of self.now.turns) (key_of self.now.turns) by.old.turn by.old.left }
        requires left { 0 < by.old.left }
        requires anchor { anchor < (key_of self.now.turns).anchors }
        requires host { H.is_of host.now pass.old × ((key_of self.now.turns).host.value ≡ host.now) }
        ensures by { IsCaller (id_of self.now.turns) (key_of self.now.turns) by.new.turn by.new.left }
        ensures left { by.new.left + 1 ≡ by.old.left }
        ensures told { (from : ℕ) × Told (sized (key_of self.now.turns)) by.old.turn by.new.turn (row by.old.turn.number SCUTTLE (Some anchor) None None from 0) }
        ensures host { H.is_of host.now pass.new }
        ensures sees { Sees (H.known (key_of self.now.turns).first.value).number (H.known pass.old) (H.known pass.new) (rejects_by (H.known (key_of self.now.turns).first.value).number (key_of self.now.turns).urbs by.new.turn.seen) }
    {
        let mut rack = self.turns.enter(rt, &mut by.turn);
        host.meet(rt, &mut rack.pass, pass);
        rack.core.scuttle(by.turn.number(), anchor);
        rack.core.know();
        rack.grew = true;
        host.meet(rt, pass, &mut rack.pass);
        self.turns.leave(&mut by.turn, rack);
        by.left -= 1;
    }

    /// Whether an anchor's list is empty.
    pub fn is_empty<R: Wait>(
        &self,
        rt: &R,
        host: &H,
        by: &mut AnchorPass<H>,
        pass: &mut H::Pass,
        anchor: u32,
    ) -> bool
        requires by { IsCaller (id_of self.now.turns) (key_of self.now.turns) by.old.turn by.old.left }
        requires left { 0 < by.old.left }
        requires anchor { anchor < (key_of self.now.turns).anchors }
        requires host { H.is_of host.now pass.old × ((key_of self.now.turns).host.value ≡ host.now) }
        ensures by { IsCaller (id_of self.now.turns) (key_of self.now.turns) by.new.turn by.new.left }
        ensures left { by.new.left + 1 ≡ by.old.left }
        ensures told { (from : ℕ) × Told (sized (key_of self.now.turns)) by.old.turn by.new.turn (row by.old.turn.number IS_EMPTY (Some anchor) None None from (cond result 1 0)) }
        ensures host { H.is_of host.now pass.new }
        ensures sees { Sees (H.known (key_of self.now.turns).first.value).number (H.known pass.old) (H.known pass.new) (rejects_by (H.known (key_of self.now.turns).first.value).number (key_of self.now.turns).urbs by.new.turn.seen) }
    {
        let mut rack = self.turns.enter(rt, &mut by.turn);
        host.meet(rt, &mut rack.pass, pass);
        let answer = rack.core.is_empty(by.turn.number(), anchor);
        rack.core.know();
        rack.grew = true;
        host.meet(rt, pass, &mut rack.pass);
        self.turns.leave(&mut by.turn, rack);
        by.left -= 1;
        answer
    }

    /// Takes an URB that is given back off its anchor, by the server. Where it is on none, no row is written.
    pub fn off_given<R: Wait>(&self, rt: &R, by: &mut AnchorPass<H>, urb: UrbId) -> Option<u32>
        requires by { IsServer (id_of self.now.turns) (key_of self.now.turns) by.old.turn }
        requires urb { urb.0 < (key_of self.now.turns).urbs }
        ensures by { IsServer (id_of self.now.turns) (key_of self.now.turns) by.new.turn }
        ensures left { by.new.left ≡ by.old.left }
        ensures gives { Gives (sized (key_of self.now.turns)) by.old.turn by.new.turn urb.0 result }
    {
        let mut rack = self.turns.enter(rt, &mut by.turn);
        match rack.core.off_given(urb) {
            Some(anchor) => {
                rack.core.know();
                rack.grew = true;
                self.turns.leave(&mut by.turn, rack);
                Some(anchor)
            }
            None => {
                rack.grew = false;
                self.turns.leave(&mut by.turn, rack);
                None
            }
        }
    }
}
