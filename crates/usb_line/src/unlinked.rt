//! Which URB comes back first since it was unlinked.
ghost use Rattle.std.specs.Prelude.{◌≡◌, ◌<◌, ◌≤◌, List, slice_get, filter};
ghost use Rattle.usb_machine.specs.declared.entry.Entry.{Entry};
ghost use Rattle.usb_machine.specs.History.{state_of, pending_of};
ghost use Rattle.usb_machine.specs.Plain.{urbs_of, ends_of, Stands};
ghost use Rattle.usb_scene.specs.declared.scene.Scene.{Scene};
ghost use Rattle.usb_trace.specs.Plan.{machine_of};
ghost use Rattle.usb_line.specs.Line.{is_unlinked, marked_below};
ghost use Rattle.usb_line.specs.Shows.{IsStood};

use usb_machine::Plain;
use usb_types::UrbId;

// Whether the URB was unlinked.
fn was_unlinked(plain: &Plain, urb: UrbId) -> bool
    requires { urb.0 < urbs_of plain.now }
    ensures { (s : Scene) (h : List Entry) → Stands plain.now (machine_of s) h → result ≡ is_unlinked (state_of h urb.0).mark }
{
    plain.mark(urb).is_some()
}

// The first pending URB of an endpoint that was unlinked.
fn marked_at(plain: &Plain, ep: u32) -> Option<u32>
    requires end { ep < ends_of plain.now }
    requires stood { IsStood plain.now }
    ensures { (s : Scene) (h : List Entry) → Stands plain.now (machine_of s) h → result ≡ slice_get (filter (λ u. is_unlinked (state_of h u).mark) (pending_of (machine_of s) h ep)) 0 }
{
    for place in 0..plain.pending_len(ep) {
        if let Some(urb) = plain.pending(ep, place) {
            if was_unlinked(plain, UrbId(urb)) {
                return Some(urb);
            }
        }
    }
    None
}

/// The first URB that is pending at one of the first `ends` endpoints and was unlinked.
pub fn first_marked(plain: &Plain, ends: u32) -> Option<u32>
    requires ends { ends ≤ ends_of plain.now }
    requires stood { IsStood plain.now }
    ensures { (s : Scene) (h : List Entry) → Stands plain.now (machine_of s) h → result ≡ slice_get (marked_below s h ends) 0 }
{
    for ep in 0..ends {
        if let Some(urb) = marked_at(plain, ep) {
            return Some(urb);
        }
    }
    None
}
