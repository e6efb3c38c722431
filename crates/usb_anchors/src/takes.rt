//! Lists that are taken whole, each in one turn.
ghost use Rattle.std.specs.Prelude.{◌≡◌, ◌+◌, ◌<◌, ◌≤◌, ℕ, Some, None, length, reverse, All};
ghost use Rattle.usb_machine.specs.HostCalls.{IsUrb};
ghost use Rattle.usb_turn.specs.Shown.{id_of};
ghost use Rattle.usb_anchor.specs.Log.{row};
ghost use Rattle.usb_anchor.specs.Laws.{same};
ghost use Rattle.usb_anchor.specs.declared.log.TheConstants.{KILL_ALL, POISON_ALL, UNLINK_ALL};
ghost use Rattle.usb_anchors.specs.Host.{Sees, rejects_by};
ghost use Rattle.usb_anchors.specs.Rack.{sized};
ghost use Rattle.usb_anchors.specs.Opened.{key_of};
ghost use Rattle.usb_anchors.specs.Told.{IsCaller, Takes};

use crate::anchors::{AnchorPass, Anchors};
use crate::rejects::reject_all;
use std::sync::Wait;
use usb_anchor::Victims;
use usb_machine::Meets;

impl<H: Meets> Anchors<H> {
    /// Takes an anchor's list whole, tail first, in one turn.
    pub(crate) fn take_to_kill<R: Wait>(
        &self,
        rt: &R,
        host: &H,
        by: &mut AnchorPass<H>,
        pass: &mut H::Pass,
        anchor: u32,
        list: &mut Victims,
    )
        requires by { IsCaller (id_of self.now.turns) (key_of self.now.turns) by.old.turn by.old.left }
        requires left { 0 < by.old.left }
        requires anchor { anchor < (key_of self.now.turns).anchors }
        requires list { (key_of self.now.turns).urbs ≤ list.old.room }
        requires host { H.is_of host.now pass.old × ((key_of self.now.turns).host.value ≡ host.now) }
        ensures by { IsCaller (id_of self.now.turns) (key_of self.now.turns) by.new.turn by.new.left }
        ensures left { by.new.left + 1 ≡ by.old.left }
        ensures told { (from : ℕ) × Takes (sized (key_of self.now.turns)) by.old.turn by.new.turn (row by.old.turn.number KILL_ALL (Some anchor) None None from (length list.new.urbs)) anchor reverse list.new.urbs }
        ensures inside { All (λ u. IsUrb (H.machine host.now) u.0) list.new.urbs }
        ensures host { H.is_of host.now pass.new }
        ensures sees { Sees (H.known (key_of self.now.turns).first.value).number (H.known pass.old) (H.known pass.new) (rejects_by (H.known (key_of self.now.turns).first.value).number (key_of self.now.turns).urbs by.new.turn.seen) }
    {
        let mut rack = self.turns.enter(rt, &mut by.turn);
        host.meet(rt, &mut rack.pass, pass);
        rack.core.kill_all(by.turn.number(), anchor, list);
        rack.core.know();
        rack.grew = true;
        host.meet(rt, pass, &mut rack.pass);
        self.turns.leave(&mut by.turn, rack);
        by.left -= 1;
    }

    /// As `take_to_kill`, and the anchor becomes poisoned: its rejects are raised in the same turn.
    pub(crate) fn take_poisoned<R: Wait>(
        &self,
        rt: &R,
        host: &H,
        by: &mut AnchorPass<H>,
        pass: &mut H::Pass,
        anchor: u32,
        list: &mut Victims,
    )
        requires by { IsCaller (id_of self.now.turns) (key_of self.now.turns) by.old.turn by.old.left }
        requires left { 0 < by.old.left }
        requires anchor { anchor < (key_of self.now.turns).anchors }
        requires list { (key_of self.now.turns).urbs ≤ list.old.room }
        requires host { H.is_of host.now pass.old × ((key_of self.now.turns).host.value ≡ host.now) }
        ensures by { IsCaller (id_of self.now.turns) (key_of self.now.turns) by.new.turn by.new.left }
        ensures left { by.new.left + 1 ≡ by.old.left }
        ensures told { (from : ℕ) × Takes (sized (key_of self.now.turns)) by.old.turn by.new.turn (row by.old.turn.number POISON_ALL (Some anchor) None None from (length list.new.urbs)) anchor reverse list.new.urbs }
        ensures inside { All (λ u. IsUrb (H.machine host.now) u.0) list.new.urbs }
        ensures host { H.is_of host.now pass.new }
        ensures sees { Sees (H.known (key_of self.now.turns).first.value).number (H.known pass.old) (H.known pass.new) (rejects_by (H.known (key_of self.now.turns).first.value).number (key_of self.now.turns).urbs by.new.turn.seen) }
    {
        let mut rack = self.turns.enter(rt, &mut by.turn);
        host.meet(rt, &mut rack.pass, pass);
        rack.core
            .poison_all_telling(by.turn.number(), anchor, list, &mut rack.raised);
        reject_all(rt, host, &mut rack.pass, rack.raised.list());
        rack.core.know();
        rack.grew = true;
        host.meet(rt, pass, &mut rack.pass);
        self.turns.leave(&mut by.turn, rack);
        by.left -= 1;
    }

    /// Takes an anchor's list whole, head first, in one turn.
    pub(crate) fn take_to_unlink<R: Wait>(
        &self,
        rt: &R,
        host: &H,
        by: &mut AnchorPass<H>,
        pass: &mut H::Pass,
        anchor: u32,
        list: &mut Victims,
    )
        requires by { IsCaller (id_of self.now.turns) (key_of self.now.turns) by.old.turn by.old.left }
        requires left { 0 < by.old.left }
        requires anchor { anchor < (key_of self.now.turns).anchors }
        requires list { (key_of self.now.turns).urbs ≤ list.old.room }
        requires host { H.is_of host.now pass.old × ((key_of self.now.turns).host.value ≡ host.now) }
        ensures by { IsCaller (id_of self.now.turns) (key_of self.now.turns) by.new.turn by.new.left }
        ensures left { by.new.left + 1 ≡ by.old.left }
        ensures told { (from : ℕ) × Takes (sized (key_of self.now.turns)) by.old.turn by.new.turn (row by.old.turn.number UNLINK_ALL (Some anchor) None None from (length list.new.urbs)) anchor same list.new.urbs }
        ensures inside { All (λ u. IsUrb (H.machine host.now) u.0) list.new.urbs }
        ensures host { H.is_of host.now pass.new }
        ensures sees { Sees (H.known (key_of self.now.turns).first.value).number (H.known pass.old) (H.known pass.new) (rejects_by (H.known (key_of self.now.turns).first.value).number (key_of self.now.turns).urbs by.new.turn.seen) }
    {
        let mut rack = self.turns.enter(rt, &mut by.turn);
        host.meet(rt, &mut rack.pass, pass);
        rack.core.unlink_all(by.turn.number(), anchor, list);
        rack.core.know();
        rack.grew = true;
        host.meet(rt, pass, &mut rack.pass);
        self.turns.leave(&mut by.turn, rack);
        by.left -= 1;
    }
}
