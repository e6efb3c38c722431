//! Entries of all URBs, one after another.
ghost use Rattle.std.specs.Prelude.{◌≡◌, ◌≤◌, ◌<◌, ◌++◌, ℕ, List, map, true, false};
ghost use Rattle.std.specs.List.{flat_map};
ghost use Rattle.usb_types.specs.declared.urb.Flag.TheVariants as flag;
ghost use Rattle.usb_types.specs.declared.urb.Why.TheVariants as why;
ghost use Rattle.usb_machine.specs.declared.entry.Entry.{Entry};
ghost use Rattle.usb_machine.specs.declared.event.Event.TheVariants as event;
ghost use Rattle.usb_machine.specs.State.{unlinking};
ghost use Rattle.usb_machine.specs.History.{state_of};
ghost use Rattle.usb_machine.specs.Parts.{part_of, held_of};
ghost use Rattle.usb_machine.specs.Calls.{plain_entry, mark_entry};
ghost use Rattle.usb_machine.specs.Plain.{Stands, urbs_of};
ghost use Rattle.usb_scene.specs.declared.scene.Scene.{Scene};
ghost use Rattle.usb_trace.specs.Plan.{machine_of};
ghost use Rattle.usb_prepare.specs.Below.{below};
ghost use Rattle.usb_trace.specs.Run.{seen_quiet};
ghost use Rattle.usb_line.specs.Steps.{AsMany, passes_of};

use crate::steps::{flag_down, mark, reject, see_quiet, unflag_down};
use usb_machine::{HUB, Plain};
use usb_types::{UrbId, Why};

/// The hub flags the first URBs: the host is down.
pub fn flag_each(plain: &mut Plain, urbs: u32)
    requires { urbs ≤ urbs_of plain.old }
    ensures counts { AsMany plain.old plain.new }
    ensures flagged { (s : Scene) (h : List Entry) → Stands plain.old (machine_of s) h → ((u : ℕ) → u < urbs → (state_of h u).flags.down ≡ false)
        → Stands plain.new (machine_of s) (h ++ map (λ u. plain_entry HUB (event.Flag record { 0 = u } flag.Down)) (below urbs)) }
{
    for u in 0..urbs {
        flag_down(plain, UrbId(u));
    }
}

/// The hub takes these flags off again.
pub fn unflag_each(plain: &mut Plain, urbs: u32)
    requires { urbs ≤ urbs_of plain.old }
    ensures counts { AsMany plain.old plain.new }
    ensures unflagged { (s : Scene) (h : List Entry) → Stands plain.old (machine_of s) h → ((u : ℕ) → u < urbs → (state_of h u).flags.down ≡ true)
        → Stands plain.new (machine_of s) (h ++ map (λ u. plain_entry HUB (event.Unflag record { 0 = u } flag.Down)) (below urbs)) }
{
    for u in 0..urbs {
        unflag_down(plain, UrbId(u));
    }
}

/// The hub unlinks the first URBs for a shutdown.
pub fn mark_each(plain: &mut Plain, urbs: u32)
    requires { urbs ≤ urbs_of plain.old }
    ensures counts { AsMany plain.old plain.new }
    ensures marked { (s : Scene) (h : List Entry) → Stands plain.old (machine_of s) h
        → Stands plain.new (machine_of s) (h ++ map (λ u. mark_entry HUB why.Shutdown u (unlinking (state_of h u))) (below urbs)) }
{
    for u in 0..urbs {
        mark(plain, HUB, UrbId(u), Why::Shutdown);
    }
}

/// A pass rejects each of the first URBs, and sees it quiet.
pub fn see_each_quiet(plain: &mut Plain, pass: u32, urbs: u32)
    requires { urbs ≤ urbs_of plain.old }
    ensures counts { AsMany plain.old plain.new }
    ensures seen { (s : Scene) (h : List Entry) → Stands plain.old (machine_of s) h → pass < passes_of s
        → ((u : ℕ) → u < urbs → ((state_of h u).queued ≡ false) × ((state_of h u).handlers ≡ 0) × ((held_of (part_of h pass) u).rejects < 255))
        → Stands plain.new (machine_of s) (h ++ flat_map (seen_quiet pass) (below urbs)) }
{
    for u in 0..urbs {
        reject(plain, pass, UrbId(u));
        see_quiet(plain, pass, UrbId(u));
    }
}
