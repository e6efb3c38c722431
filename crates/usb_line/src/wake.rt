//! Endpoints where a transfer waits fall asleep. A wait and a serve wake them.
ghost use Rattle.std.specs.Prelude.{◌≡◌, ℕ, map};
ghost use Rattle.usb_scene.specs.declared.scene.Scene.{Scene};
ghost use Rattle.usb_line.specs.Line.{Progress, woken};
ghost use Rattle.usb_line.specs.Shows.{Shows};
ghost use Rattle.usb_line.specs.Awake.{awake};

use crate::run::{EndRow, LineRun};

fn wake_all(ends: &mut [EndRow])
    ensures { ends.new ≡ map awake ends.old }
{
    for end in ends.iter_mut() {
        end.asleep = false;
    }
}

impl LineRun<'_> {
    /// Wakes all endpoints.
    pub fn wake(&mut self)
        ensures ends { self.new.ends.items ≡ map awake self.old.ends.items }
        ensures rest { (self.new.plain ≡ self.old.plain) × (self.new.urbs ≡ self.old.urbs) }
        ensures woken { (s : Scene) (f : Progress) → Shows s f self.old → Shows s (woken f) self.new }
    {
        wake_all(&mut self.ends);
    }
}
