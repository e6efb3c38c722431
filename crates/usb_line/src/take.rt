//! The server takes what stands in the lines.
ghost use Rattle.std.specs.Prelude.{◌<◌, ◌≤◌, ◌++◌, List};
ghost use Rattle.usb_machine.specs.declared.entry.Entry.{Entry};
ghost use Rattle.usb_machine.specs.History.{line_of};
ghost use Rattle.usb_machine.specs.Plain.{ends_of, Stands};
ghost use Rattle.usb_scene.specs.declared.scene.Scene.{Scene};
ghost use Rattle.usb_trace.specs.Plan.{machine_of};
ghost use Rattle.usb_line.specs.Line.{takes, takes_below};
ghost use Rattle.usb_line.specs.Steps.{AsMany};

use crate::steps::enter;
use usb_machine::{Event, Plain, SERVER};

// Takes what stands in the line of an endpoint.
fn take_line(plain: &mut Plain, ep: u32)
    requires { ep < ends_of plain.old }
    ensures counts { AsMany plain.old plain.new }
    ensures taken { (s : Scene) (h : List Entry) → Stands plain.old (machine_of s) h → Stands plain.new (machine_of s) (h ++ takes ep (line_of (machine_of s) h ep)) }
{
    for _ in 0..plain.waiting(ep) {
        enter(plain, SERVER, Event::Take { ep });
    }
}

/// Takes what stands in the lines of the first `ends` endpoints, one after another.
pub fn take_all(plain: &mut Plain, ends: u32)
    requires { ends ≤ ends_of plain.old }
    ensures counts { AsMany plain.old plain.new }
    ensures taken { (s : Scene) (h : List Entry) → Stands plain.old (machine_of s) h → Stands plain.new (machine_of s) (h ++ takes_below s h ends) }
{
    for ep in 0..ends {
        take_line(plain, ep);
    }
}
