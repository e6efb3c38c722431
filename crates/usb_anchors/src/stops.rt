//! The calls on a whole list: it is taken in a turn, and after the turn its URBs are stopped or unlinked.
ghost use Rattle.std.specs.Prelude.{◌≡◌, ◌+◌, ◌<◌, ◌≤◌, ℕ, Some, None, length, reverse};
ghost use Rattle.usb_machine.specs.Parts.{held_of};
ghost use Rattle.usb_cancel.specs.Flushing.{ids};
ghost use Rattle.usb_turn.specs.Shown.{id_of};
ghost use Rattle.usb_anchor.specs.Log.{row};
ghost use Rattle.usb_anchor.specs.Laws.{same};
ghost use Rattle.usb_anchor.specs.declared.log.TheConstants.{KILL_ALL, POISON_ALL, UNLINK_ALL};
ghost use Rattle.usb_anchors.specs.Host.{rejects_by};
ghost use Rattle.usb_anchors.specs.Rack.{sized};
ghost use Rattle.usb_anchors.specs.Opened.{key_of};
ghost use Rattle.usb_anchors.specs.Told.{IsCaller, Takes};
ghost use Rattle.usb_anchors.specs.Stopped.{Stops, Unlinks};

use crate::anchors::{AnchorPass, Anchors};
use crate::stopping::{stop_all, unlink_each};
use std::sync::Wait;
use usb_anchor::Victims;
use usb_machine::Meets;

impl<H: Meets> Anchors<H> {
    /// Takes an anchor's list whole, tail first, and then stops each of its URBs in that order.
    pub fn kill_all<R: Wait>(
        &self,
        rt: &R,
        host: &H,
        by: &mut AnchorPass<H>,
        pass: &mut H::Pass,
        anchor: u32,
        list: &mut Victims,
    )
        requires by { IsCaller (id_of self.now.turns) (key_of self.now.turns) by.old.turn by.old.left }
        requires left { 0 < by.old.left }
        requires anchor { anchor < (key_of self.now.turns).anchors }
        requires list { (key_of self.now.turns).urbs ≤ list.old.room }
        requires host { H.is_of host.now pass.old × ((key_of self.now.turns).host.value ≡ host.now) }
        requires room { (u : ℕ) → (held_of (H.known pass.old).mine u).rejects < 255 }
        ensures by { IsCaller (id_of self.now.turns) (key_of self.now.turns) by.new.turn by.new.left }
        ensures left { by.new.left + 1 ≡ by.old.left }
        ensures told { (from : ℕ) × Takes (sized (key_of self.now.turns)) by.old.turn by.new.turn (row by.old.turn.number KILL_ALL (Some anchor) None None from (length list.new.urbs)) anchor reverse list.new.urbs }
        ensures host { H.is_of host.now pass.new }
        ensures after { Stops (H.known (key_of self.now.turns).first.value).number (H.known pass.old) (H.known pass.new) (rejects_by (H.known (key_of self.now.turns).first.value).number (key_of self.now.turns).urbs by.new.turn.seen) (ids list.new.urbs) }
    {
        self.take_to_kill(rt, host, by, pass, anchor, list);
        stop_all(rt, host, pass, list.list());
    }

    /// As `kill_all`, and when the list is taken the anchor becomes poisoned, and raises a reject on each URB of the list on
    /// which it holds none.
    pub fn poison_all<R: Wait>(
        &self,
        rt: &R,
        host: &H,
        by: &mut AnchorPass<H>,
        pass: &mut H::Pass,
        anchor: u32,
        list: &mut Victims,
    )
        requires by { IsCaller (id_of self.now.turns) (key_of self.now.turns) by.old.turn by.old.left }
        requires left { 0 < by.old.left }
        requires anchor { anchor < (key_of self.now.turns).anchors }
        requires list { (key_of self.now.turns).urbs ≤ list.old.room }
        requires host { H.is_of host.now pass.old × ((key_of self.now.turns).host.value ≡ host.now) }
        requires room { (u : ℕ) → (held_of (H.known pass.old).mine u).rejects < 255 }
        ensures by { IsCaller (id_of self.now.turns) (key_of self.now.turns) by.new.turn by.new.left }
        ensures left { by.new.left + 1 ≡ by.old.left }
        ensures told { (from : ℕ) × Takes (sized (key_of self.now.turns)) by.old.turn by.new.turn (row by.old.turn.number POISON_ALL (Some anchor) None None from (length list.new.urbs)) anchor reverse list.new.urbs }
        ensures host { H.is_of host.now pass.new }
        ensures after { Stops (H.known (key_of self.now.turns).first.value).number (H.known pass.old) (H.known pass.new) (rejects_by (H.known (key_of self.now.turns).first.value).number (key_of self.now.turns).urbs by.new.turn.seen) (ids list.new.urbs) }
    {
        self.take_poisoned(rt, host, by, pass, anchor, list);
        stop_all(rt, host, pass, list.list());
    }

    /// Takes an anchor's list whole, head first, and then unlinks each of its URBs in that order.
    pub fn unlink_all<R: Wait>(
        &self,
        rt: &R,
        host: &H,
        by: &mut AnchorPass<H>,
        pass: &mut H::Pass,
        anchor: u32,
        list: &mut Victims,
    )
        requires by { IsCaller (id_of self.now.turns) (key_of self.now.turns) by.old.turn by.old.left }
        requires left { 0 < by.old.left }
        requires anchor { anchor < (key_of self.now.turns).anchors }
        requires list { (key_of self.now.turns).urbs ≤ list.old.room }
        requires host { H.is_of host.now pass.old × ((key_of self.now.turns).host.value ≡ host.now) }
        ensures by { IsCaller (id_of self.now.turns) (key_of self.now.turns) by.new.turn by.new.left }
        ensures left { by.new.left + 1 ≡ by.old.left }
        ensures told { (from : ℕ) × Takes (sized (key_of self.now.turns)) by.old.turn by.new.turn (row by.old.turn.number UNLINK_ALL (Some anchor) None None from (length list.new.urbs)) anchor same list.new.urbs }
        ensures host { H.is_of host.now pass.new }
        ensures after { Unlinks (H.known (key_of self.now.turns).first.value).number (H.known pass.old) (H.known pass.new) (rejects_by (H.known (key_of self.now.turns).first.value).number (key_of self.now.turns).urbs by.new.turn.seen) (ids list.new.urbs) }
    {
        self.take_to_unlink(rt, host, by, pass, anchor, list);
        unlink_each(rt, host, pass, list.list());
    }
}
