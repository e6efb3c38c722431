//! The calls of a run in line order that are on one URB, and a serve.
ghost use Rattle.std.specs.Prelude.{ℕ, IfOk};
ghost use Rattle.usb_scene.specs.declared.scene.Scene.{Scene};
ghost use Rattle.usb_scene.specs.declared.scene.Call.{Call};
ghost use Rattle.usb_trace.specs.declared.rows.HostCall.TheVariants as host_call;
ghost use Rattle.usb_line.specs.Line.{Progress};
ghost use Rattle.usb_line.specs.Shows.{IsShown};
ghost use Rattle.usb_line.specs.Calls.{MayMake, CanMake, Made};

use crate::run::LineRun;
use crate::steps::{mark, reject, withdraw};
use std::alloc::Global;
use usb_trace::CallAnswer;
use usb_types::{Code, Errno, Memory, UrbId, Why};

impl LineRun<'_> {
    /// Unlinks the URB.
    pub fn unlink(&mut self, pass: u32, urb: UrbId) -> CallAnswer
        requires { CanMake self.old pass (host_call.Unlink urb.0) }
        ensures { (s : Scene) (f : Progress) (i : ℕ) (c : Call) → MayMake s f i c self.old pass (host_call.Unlink urb.0) → Made s f i c result self.new }
    {
        CallAnswer::Code(mark(&mut self.plain, pass, urb, Why::Unlink))
    }

    /// Raises a reject.
    pub fn block(&mut self, pass: u32, urb: UrbId) -> CallAnswer
        requires { CanMake self.old pass (host_call.Block urb.0) }
        ensures { (s : Scene) (f : Progress) (i : ℕ) (c : Call) → MayMake s f i c self.old pass (host_call.Block urb.0) → Made s f i c result self.new }
    {
        reject(&mut self.plain, pass, urb);
        CallAnswer::Done
    }

    /// Withdraws the reject of a block.
    pub fn unblock(&mut self, pass: u32, urb: UrbId) -> CallAnswer
        requires { CanMake self.old pass (host_call.Unblock urb.0) }
        ensures { (s : Scene) (f : Progress) (i : ℕ) (c : Call) → MayMake s f i c self.old pass (host_call.Unblock urb.0) → Made s f i c result self.new }
    {
        withdraw(&mut self.plain, pass, urb);
        CallAnswer::Done
    }

    /// Withdraws the reject of a poison.
    pub fn unpoison(&mut self, pass: u32, urb: UrbId) -> CallAnswer
        requires { CanMake self.old pass (host_call.Unpoison urb.0) }
        ensures { (s : Scene) (f : Progress) (i : ℕ) (c : Call) → MayMake s f i c self.old pass (host_call.Unpoison urb.0) → Made s f i c result self.new }
    {
        withdraw(&mut self.plain, pass, urb);
        CallAnswer::Done
    }

    /// Kills the URB.
    pub fn kill(&mut self, alloc: Global, pass: u32, urb: UrbId) -> Result<CallAnswer, Memory>
        requires { CanMake self.old pass (host_call.Kill urb.0) }
        ensures { IfOk result (λ told. (s : Scene) (f : Progress) (i : ℕ) (c : Call) → MayMake s f i c self.old pass (host_call.Kill urb.0) → Made s f i c told self.new) }
    {
        let rest = self.kill_urb(alloc, pass, urb)?;
        Ok(CallAnswer::Buffer(rest))
    }

    /// Poisons the URB.
    pub fn poison(&mut self, alloc: Global, pass: u32, urb: UrbId) -> Result<CallAnswer, Memory>
        requires { CanMake self.old pass (host_call.Poison urb.0) }
        ensures { IfOk result (λ told. (s : Scene) (f : Progress) (i : ℕ) (c : Call) → MayMake s f i c self.old pass (host_call.Poison urb.0) → Made s f i c told self.new) }
    {
        let rest = self.poison_urb(alloc, pass, urb)?;
        Ok(CallAnswer::Buffer(rest))
    }

    /// Answers a call on an URB that no driver has.
    pub fn refuse(&self) -> CallAnswer
        ensures { (s : Scene) (f : Progress) (i : ℕ) (c : Call) (p : ℕ) → MayMake s f i c self.now p host_call.Absent → Made s f i c result self.now }
    {
        CallAnswer::Code(Code::Fault(Errno::ENODEV))
    }

    /// Turns until one gives nothing back.
    pub fn serve_all(&mut self, alloc: Global) -> Result<CallAnswer, Memory>
        requires { IsShown self.old }
        ensures { IfOk result (λ told. (s : Scene) (f : Progress) (i : ℕ) (c : Call) (p : ℕ) → MayMake s f i c self.old p host_call.Serve → Made s f i c told self.new) }
    {
        self.serve(alloc)?;
        Ok(CallAnswer::Nothing)
    }
}
