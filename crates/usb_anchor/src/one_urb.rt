//! The calls on one URB: it comes onto an anchor, and leaves it.
ghost use Rattle.std.specs.Prelude.{◌≡◌, ◌<◌, [], length, OnOk, OnErr, IfSome, IfNone, Some, None, option_map};
ghost use Rattle.usb_anchor.specs.Anchor.{added, left as left_by, beheaded};
ghost use Rattle.usb_anchor.specs.Log.{IsPlace, list_of, head_of, named, row};
ghost use Rattle.usb_anchor.specs.Core.{CanCall, called, given, Changes, ChangesAt, Same, busy_of};

use crate::anchor_core::AnchorCore;
use crate::log::{ADD, AddFault, FIRST, LogRow, OFF};
use usb_types::UrbId;

impl AnchorCore {
    /// Puts an URB last on an anchor. It is refused where the URB is on an anchor.
    pub fn add(&mut self, by: u32, anchor: u32, urb: UrbId) -> Result<(), AddFault>
        requires by { CanCall self.old.left by }
        requires anchor { anchor < self.old.anchors }
        requires urb { urb.0 < self.old.urbs }
        ensures busy { IsPlace self.old.rows urb.0 (busy_of result) }
        ensures log { self.new ≡ called self.old (row by ADD (Some anchor) (Some urb) (busy_of result) (length self.old.victims) 0) [] }
        ensures added { OnOk result (Changes self.old.rows self.new.rows anchor (added urb.0)) }
        ensures refused { OnErr result (Same self.old.rows self.new.rows) }
    {
        let busy = self.rings.on[urb.0 as usize];
        let row = self.ledger.next_row(by, ADD, Some(anchor));
        self.ledger.note(LogRow {
            urb: Some(urb),
            busy,
            ..row
        });
        if let Some(other) = busy {
            return Err(AddFault::Busy(other));
        }
        self.rings.push(anchor, urb.0);
        self.poisons[anchor as usize].add(urb.0);
        Ok(())
    }

    /// Takes an URB off its anchor, and answers which it was.
    pub fn off(&mut self, by: u32, urb: UrbId) -> Option<u32>
        requires by { CanCall self.old.left by }
        requires urb { urb.0 < self.old.urbs }
        ensures place { IsPlace self.old.rows urb.0 result }
        ensures log { self.new ≡ called self.old (row by OFF result (Some urb) None (length self.old.victims) 0) [] }
        ensures state { ChangesAt self.old.rows self.new.rows result (left_by urb.0) }
    {
        let place = self.rings.on[urb.0 as usize];
        let row = self.ledger.next_row(by, OFF, place);
        self.rings.remove(urb.0);
        self.ledger.note(LogRow {
            urb: Some(urb),
            ..row
        });
        place
    }

    /// Takes an URB that is given back off its anchor, by the server. Where it is on none, no row is written.
    pub fn off_given(&mut self, urb: UrbId) -> Option<u32>
        requires { urb.0 < self.old.urbs }
        ensures place { IsPlace self.old.rows urb.0 result }
        ensures none { IfNone result (self.new ≡ self.old) }
        ensures log { IfSome result (λ a. self.new ≡ given self.old (row (length self.old.left) OFF (Some a) (Some urb) None (length self.old.victims) 0)) }
        ensures state { ChangesAt self.old.rows self.new.rows result (left_by urb.0) }
    {
        let Some(anchor) = self.rings.on[urb.0 as usize] else {
            return None;
        };
        let server = self.ledger.left.len() as u32;
        let row = self.ledger.next_row(server, OFF, Some(anchor));
        self.rings.remove(urb.0);
        self.ledger.note_given(LogRow {
            urb: Some(urb),
            ..row
        });
        Some(anchor)
    }

    /// Takes the head off an anchor.
    pub fn first(&mut self, by: u32, anchor: u32) -> Option<UrbId>
        requires by { CanCall self.old.left by }
        requires anchor { anchor < self.old.anchors }
        ensures head { result ≡ head_of (list_of self.old.rows anchor) }
        ensures log { self.new ≡ called self.old (row by FIRST (Some anchor) result None (length self.old.victims) 0) [] }
        ensures state { Changes self.old.rows self.new.rows anchor beheaded }
    {
        let row = self.ledger.next_row(by, FIRST, Some(anchor));
        let urb = name(self.rings.pop_head(anchor));
        self.ledger.note(LogRow { urb, ..row });
        urb
    }
}

fn name(urb: Option<u32>) -> Option<UrbId>
    ensures { result ≡ option_map named urb }
{
    urb.map(UrbId)
}
