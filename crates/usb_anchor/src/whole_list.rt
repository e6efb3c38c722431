//! The calls on a whole list: it is taken, emptied, or looked at.
ghost use Rattle.std.specs.Prelude.{◌≡◌, ◌<◌, ◌≤◌, [], length, map, reverse, cond, Some, None};
ghost use Rattle.usb_anchor.specs.Anchor.{emptied};
ghost use Rattle.usb_anchor.specs.Log.{list_of, is_nil, named, row};
ghost use Rattle.usb_anchor.specs.Core.{CanCall, called, Changes, Same};

use crate::anchor_core::AnchorCore;
use crate::log::{IS_EMPTY, KILL_ALL, LogRow, SCUTTLE, UNLINK_ALL};
use crate::taking::{let_go, take_back, take_front};
use crate::victims::Victims;

impl AnchorCore {
    /// Takes an anchor's list whole, tail first. Its URBs are to be stopped in this order.
    pub fn kill_all(&mut self, by: u32, anchor: u32, list: &mut Victims)
        requires by { CanCall self.old.left by }
        requires anchor { anchor < self.old.anchors }
        requires list { self.old.urbs ≤ list.old.room }
        ensures list { list.new ≡ record list.old { urbs = map named (reverse (list_of self.old.rows anchor)) } }
        ensures log { self.new ≡ called self.old (row by KILL_ALL (Some anchor) None None (length self.old.victims) (length (list_of self.old.rows anchor))) (reverse (list_of self.old.rows anchor)) }
        ensures state { Changes self.old.rows self.new.rows anchor emptied }
    {
        let row = self.ledger.next_row(by, KILL_ALL, Some(anchor));
        list.urbs.clear();
        take_back(
            &mut self.rings,
            anchor,
            &mut self.ledger.victims,
            &mut list.urbs,
        );
        let count = list.urbs.len() as u32;
        self.ledger.note(LogRow { count, ..row });
    }

    /// Takes an anchor's list whole, head first. Its URBs are to be unlinked in this order.
    pub fn unlink_all(&mut self, by: u32, anchor: u32, list: &mut Victims)
        requires by { CanCall self.old.left by }
        requires anchor { anchor < self.old.anchors }
        requires list { self.old.urbs ≤ list.old.room }
        ensures list { list.new ≡ record list.old { urbs = map named (list_of self.old.rows anchor) } }
        ensures log { self.new ≡ called self.old (row by UNLINK_ALL (Some anchor) None None (length self.old.victims) (length (list_of self.old.rows anchor))) (list_of self.old.rows anchor) }
        ensures state { Changes self.old.rows self.new.rows anchor emptied }
    {
        let row = self.ledger.next_row(by, UNLINK_ALL, Some(anchor));
        list.urbs.clear();
        take_front(
            &mut self.rings,
            anchor,
            &mut self.ledger.victims,
            &mut list.urbs,
        );
        let count = list.urbs.len() as u32;
        self.ledger.note(LogRow { count, ..row });
    }

    /// Empties an anchor's list, and does nothing else.
    pub fn scuttle(&mut self, by: u32, anchor: u32)
        requires by { CanCall self.old.left by }
        requires anchor { anchor < self.old.anchors }
        ensures log { self.new ≡ called self.old (row by SCUTTLE (Some anchor) None None (length self.old.victims) 0) [] }
        ensures state { Changes self.old.rows self.new.rows anchor emptied }
    {
        let row = self.ledger.next_row(by, SCUTTLE, Some(anchor));
        let_go(&mut self.rings, anchor);
        self.ledger.note(row);
    }

    /// Whether an anchor's list is empty.
    pub fn is_empty(&mut self, by: u32, anchor: u32) -> bool
        requires by { CanCall self.old.left by }
        requires anchor { anchor < self.old.anchors }
        ensures answer { result ≡ is_nil (list_of self.old.rows anchor) }
        ensures log { self.new ≡ called self.old (row by IS_EMPTY (Some anchor) None None (length self.old.victims) (cond result 1 0)) [] }
        ensures state { Same self.old.rows self.new.rows }
    {
        let row = self.ledger.next_row(by, IS_EMPTY, Some(anchor));
        let empty = self.rings.head(anchor).is_none();
        self.ledger.note(LogRow {
            count: u32::from(empty),
            ..row
        });
        empty
    }
}
