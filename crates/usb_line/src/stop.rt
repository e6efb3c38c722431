//! Kills and poisons of a run in line order.
ghost use Rattle.std.specs.Prelude.{◌≡◌, ◌<◌, ℕ, IfOk};
ghost use Rattle.usb_machine.specs.Plain.{urbs_of};
ghost use Rattle.usb_scene.specs.declared.scene.Scene.{Scene};
ghost use Rattle.usb_line.specs.Line.{Progress, killing};
ghost use Rattle.usb_line.specs.Shows.{Shows};
ghost use Rattle.usb_line.specs.Calls.{MayKill, CanKill, Stopped, Killed};

use crate::run::LineRun;
use crate::steps::{claim, mark, reject, withdraw};
use std::alloc::Global;
use usb_types::{Memory, UrbId, Why};

impl LineRun<'_> {
    // Rejects the URB and unlinks it.
    fn begin_kill(&mut self, pass: u32, urb: UrbId)
        requires { urb.0 < urbs_of self.old.plain }
        ensures { (s : Scene) (f : Progress) → MayKill s f self.old pass urb.0 → Shows s (killing pass urb.0 f) self.new }
    {
        reject(&mut self.plain, pass, urb);
        mark(&mut self.plain, pass, urb, Why::Kill);
    }

    /// Rejects the URB, unlinks it, waits until it is quiet, and claims what rests with it. Answers its number.
    pub fn poison_urb(
        &mut self,
        alloc: Global,
        pass: u32,
        urb: UrbId,
    ) -> Result<Option<u64>, Memory>
        requires { CanKill self.old pass urb.0 }
        ensures { IfOk result (λ rest. (s : Scene) (f : Progress) → MayKill s f self.old pass urb.0 → Stopped s f pass urb.0 rest self.new) }
    {
        self.begin_kill(pass, urb);
        self.wait_for(alloc, urb.0)?;
        Ok(claim(&mut self.plain, pass, urb))
    }

    /// Poisons the URB, and withdraws the reject. Answers the number of what rested.
    pub fn kill_urb(&mut self, alloc: Global, pass: u32, urb: UrbId) -> Result<Option<u64>, Memory>
        requires { CanKill self.old pass urb.0 }
        ensures { IfOk result (λ rest. (s : Scene) (f : Progress) → MayKill s f self.old pass urb.0 → Killed s f pass urb.0 rest self.new) }
    {
        let rest = self.poison_urb(alloc, pass, urb)?;
        withdraw(&mut self.plain, pass, urb);
        Ok(rest)
    }
}
