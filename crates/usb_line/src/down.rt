//! Taking the host down, and up again.
ghost use Rattle.std.specs.Prelude.{◌≡◌, ◌<◌, ◌≤◌, ℕ, false, length, IfOk};
ghost use Rattle.usb_machine.specs.History.{state_of};
ghost use Rattle.usb_machine.specs.Plain.{urbs_of};
ghost use Rattle.usb_scene.specs.declared.scene.Scene.{Scene};
ghost use Rattle.usb_scene.specs.declared.scene.Call.{Call};
ghost use Rattle.usb_scene.specs.WellFormed.{IsWellFormed};
ghost use Rattle.usb_prepare.specs.Layout.{urb_count};
ghost use Rattle.usb_trace.specs.declared.rows.HostCall.TheVariants as host_call;
ghost use Rattle.usb_line.specs.Line.{Progress, shutting};
ghost use Rattle.usb_line.specs.Shows.{IsShown, Shows};
ghost use Rattle.usb_line.specs.Calls.{MayMake, CanMake, Made, IsShut, CanClaim, Claimed};

use crate::every::{flag_each, mark_each, unflag_each};
use crate::run::LineRun;
use crate::steps::claim;
use std::alloc::Global;
use usb_machine::HUB;
use usb_trace::CallAnswer;
use usb_types::{Code, Errno, Memory, UrbId};

impl LineRun<'_> {
    /// How many URBs the run has.
    pub fn urb_count(&self) -> u32
        requires { IsShown self.now }
        ensures { result ≡ length self.now.urbs.items }
    {
        self.urbs.len() as u32
    }

    // Flags all URBs, and then unlinks them.
    fn begin_down(&mut self, urbs: u32)
        requires { urbs ≤ urbs_of self.old.plain }
        ensures { (s : Scene) (f : Progress) → IsWellFormed s → Shows s f self.old → urbs ≡ urb_count s → ((u : ℕ) → u < urb_count s → (state_of f.history u).flags.down ≡ false)
            → IsShut s (shutting s HUB f) self.new }
    {
        flag_each(&mut self.plain, urbs);
        mark_each(&mut self.plain, urbs);
    }

    // Waits for each URB, and claims what rests with it.
    fn claim_each(&mut self, alloc: Global, urbs: u32) -> Result<(), Memory>
        requires { CanClaim self.old urbs }
        ensures { IfOk result (λ _. (s : Scene) (f : Progress) → IsShut s f self.old → urbs ≡ urb_count s → Claimed s f urbs self.new) }
    {
        for u in 0..urbs {
            self.wait_for(alloc, u)?;
            claim(&mut self.plain, HUB, UrbId(u));
        }
        Ok(())
    }

    /// Takes the host down, where it is not.
    pub fn take_down(&mut self, alloc: Global) -> Result<CallAnswer, Memory>
        requires { CanMake self.old HUB host_call.Down }
        ensures { IfOk result (λ told. (s : Scene) (f : Progress) (i : ℕ) (c : Call) → MayMake s f i c self.old HUB host_call.Down → Made s f i c told self.new) }
    {
        if self.down {
            return Ok(CallAnswer::Code(Code::Fault(Errno::ESHUTDOWN)));
        }
        let urbs = self.urb_count();
        self.begin_down(urbs);
        self.claim_each(alloc, urbs)?;
        self.down = true;
        Ok(CallAnswer::Done)
    }

    /// Takes the flag off, where the host is down.
    pub fn bring_up(&mut self) -> CallAnswer
        requires { CanMake self.old HUB host_call.Up }
        ensures { (s : Scene) (f : Progress) (i : ℕ) (c : Call) → MayMake s f i c self.old HUB host_call.Up → Made s f i c result self.new }
    {
        if !self.down {
            return CallAnswer::Done;
        }
        let urbs = self.urb_count();
        unflag_each(&mut self.plain, urbs);
        self.down = false;
        CallAnswer::Done
    }
}
