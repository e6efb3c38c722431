//! How anchors end.
ghost use Rattle.std.specs.Prelude.{◌≡◌, ◌≤◌, [], map, length, vec_capacity};
ghost use Rattle.std.specs.List.Sorted.{IsPermutation};
ghost use Rattle.usb_anchors.specs.Opened.{turn_of};

use crate::anchors::{AnchorPass, Anchors};
use crate::rack::Rack;
use usb_anchor::AnchorLog;
use usb_machine::Meets;
use usb_turn::TurnPass;

impl<H: Meets> Anchors<H> {
    ghost use Rattle.std.specs.Prelude.{◌≡◌, ◌≤◌, length, map};
    ghost use Rattle.usb_turn.specs.Pass.{AllOf, Closes};
    ghost use Rattle.usb_turn.specs.Shown.{id_of, passes_of};
    ghost use Rattle.usb_anchor.specs.Log.{IsLog};
    ghost use Rattle.usb_anchors.specs.Rack.{by_of, sized};
    ghost use Rattle.usb_anchors.specs.Host.{rejects_by};
    ghost use Rattle.usb_anchors.specs.Opened.{key_of, turn_of};

    /// The log, and the anchors' pass of the host, with all passes in hand. It takes no memory.
    pub fn close(self, passes: Vec<AnchorPass<H>>) -> (AnchorLog, H::Pass)
        requires passes { AllOf (id_of self.turns) (passes_of self.turns) (map turn_of passes.items) }
        requires count { length passes.items ≤ passes_of self.turns }
        ensures log { IsLog (sized (key_of self.turns)) result.0.rows.items result.0.victims.items }
        ensures parts { Closes by_of result.0.rows.items (map turn_of passes.items) }
        ensures here { H.is_of (key_of self.turns).host.value result.1 }
        ensures rejects { (H.known result.1).mine ≡ rejects_by (H.known (key_of self.turns).first.value).number (key_of self.turns).urbs result.0.rows.items }
    {
        let Anchors { turns, room } = self;
        let all = unwrapped(passes, room);
        let rack = turns.close(all);
        let Rack {
            core,
            pass,
            raised: _,
            grew: _,
            plan: _,
        } = rack;
        (core.close(), pass)
    }
}

/// The passes of the turns alone, in any order.
fn unwrapped<H: Meets>(
    mut passes: Vec<AnchorPass<H>>,
    mut room: Vec<TurnPass<Rack<H>>>,
) -> Vec<TurnPass<Rack<H>>>
    requires empty { room.items ≡ [] }
    requires capacity { length passes.items ≤ vec_capacity room }
    ensures { IsPermutation (map turn_of passes.items) result.items }
{
    while let Some(pass) = passes.pop() {
        let AnchorPass { turn, left: _ } = pass;
        room.push_reserved(turn);
    }
    room
}
