//! The close of a run in line order.
ghost use Rattle.std.specs.Prelude.{◌≡◌, IfOk};
ghost use Rattle.usb_scene.specs.declared.scene.Scene.{Scene};
ghost use Rattle.usb_prepare.specs.Layout.{urb_count};
ghost use Rattle.usb_trace.specs.Plan.{main_pass};
ghost use Rattle.usb_line.specs.Line.{Progress};
ghost use Rattle.usb_line.specs.Calls.{IsCalled, CanEnd, CanClose, KilledEach, Closed};

use crate::every::see_each_quiet;
use crate::run::LineRun;
use std::alloc::Global;
use usb_types::{Memory, UrbId};

impl LineRun<'_> {
    // Main kills each URB, in rising number.
    fn kill_each(&mut self, alloc: Global, pass: u32, urbs: u32) -> Result<(), Memory>
        requires { CanClose self.old pass urbs }
        ensures { IfOk result (λ _. (s : Scene) (f : Progress) → IsCalled s f self.old → pass ≡ main_pass s → urbs ≡ urb_count s → KilledEach s f urbs self.new) }
    {
        for u in 0..urbs {
            self.kill_urb(alloc, pass, UrbId(u))?;
        }
        Ok(())
    }

    /// Main kills each URB, and then sees each quiet under a reject.
    pub fn close(&mut self, alloc: Global, pass: u32) -> Result<(), Memory>
        requires { CanEnd self.old pass }
        ensures { IfOk result (λ _. (s : Scene) (f : Progress) → IsCalled s f self.old → pass ≡ main_pass s → Closed s f self.new) }
    {
        let urbs = self.urb_count();
        self.kill_each(alloc, pass, urbs)?;
        see_each_quiet(&mut self.plain, pass, urbs);
        Ok(())
    }
}
