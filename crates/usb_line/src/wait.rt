//! Waits until an URB is quiet.
ghost use Rattle.std.specs.Prelude.{◌≡◌, ◌<◌, false, length, IfOk};
ghost use Rattle.usb_machine.specs.History.{state_of};
ghost use Rattle.usb_scene.specs.declared.scene.Scene.{Scene};
ghost use Rattle.usb_scene.specs.WellFormed.{IsWellFormed};
ghost use Rattle.usb_line.specs.Line.{Progress, is_quiet};
ghost use Rattle.usb_line.specs.Shows.{IsShown, Shows};
ghost use Rattle.usb_line.specs.Steps.{IsStopping};
ghost use Rattle.usb_line.specs.Calls.{TurnedUntil, Waited};

use crate::run::LineRun;
use std::alloc::Global;
use usb_types::Memory;

impl LineRun<'_> {
    // Whether the URB is neither queued nor in a handler.
    fn is_quiet(&self, urb: u32) -> bool
        requires { urb < length self.now.urbs.items }
        ensures { (s : Scene) (f : Progress) → Shows s f self.now → result ≡ is_quiet (state_of f.history urb) }
    {
        self.urbs[urb as usize].transfer.is_none()
    }

    // Makes turns until the URB is quiet, or one gives nothing back.
    fn turn_until(&mut self, alloc: Global, urb: u32) -> Result<(), Memory>
        requires shown { IsShown self.old }
        requires urb { urb < length self.old.urbs.items }
        ensures shown { IfOk result (λ _. IsShown self.new) }
        ensures waited { IfOk result (λ _. (s : Scene) (f : Progress) → IsWellFormed s → Shows s f self.old → is_quiet (state_of f.history urb) ≡ false → IsStopping (state_of f.history urb)
            → TurnedUntil s f urb self.new) }
    {
        loop {
            if !self.turn(alloc)? {
                return Ok(());
            }
            if self.is_quiet(urb) {
                return Ok(());
            }
        }
    }

    /// Waits until the URB is quiet, which was unlinked and whose gate is closed.
    pub fn wait_for(&mut self, alloc: Global, urb: u32) -> Result<(), Memory>
        requires shown { IsShown self.old }
        requires urb { urb < length self.old.urbs.items }
        ensures shown { IfOk result (λ _. IsShown self.new) }
        ensures waited { IfOk result (λ _. (s : Scene) (f : Progress) → IsWellFormed s → Shows s f self.old → IsStopping (state_of f.history urb) → Waited s f urb self.new) }
    {
        if self.is_quiet(urb) {
            return Ok(());
        }
        self.wake();
        self.turn_until(alloc, urb)?;
        Ok(())
    }
}
