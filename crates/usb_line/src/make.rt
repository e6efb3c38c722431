//! The calls of a run in line order, one after another.
ghost use Rattle.std.specs.Prelude.{◌≡◌, ◌<◌, ◌+◌, ◌++◌, map, take, length, IfOk};
ghost use Rattle.usb_scene.specs.WellFormed.{IsWellFormed};
ghost use Rattle.usb_prepare.specs.Prepared.{bindings_of};
ghost use Rattle.usb_line.specs.Line.{Progress};
ghost use Rattle.usb_trace.specs.Plan.{calls_from};
ghost use Rattle.usb_line.specs.Calls.{MayBeMade, CanBeMade, Made, IsUnderway};

use crate::run::LineRun;
use std::alloc::Global;
use usb_bind::Bound;
use usb_scene::{Call, Scene};
use usb_trace::{CallAnswer, CallMade, HostCall, host_call_in, pass_of_thread, sent_by_call};
use usb_types::{List, Memory, UrbId};

impl LineRun<'_> {
    // Makes one call of a thread. Answers what the call answers.
    fn make(
        &mut self,
        alloc: Global,
        scene: &Scene,
        bindings: &[Bound],
        thread: u32,
        call: &Call,
    ) -> Result<CallAnswer, Memory>
        requires can { CanBeMade scene.now thread call.now self.old }
        requires bound { bindings.now ≡ bindings_of scene.now }
        ensures { IfOk result (λ told. (f : Progress) → MayBeMade scene.now f thread call.now self.old → Made scene.now f thread call.now told self.new) }
    {
        let pass = pass_of_thread(scene, thread);
        match host_call_in(bindings, call) {
            HostCall::Submit(urb) => {
                let t = sent_by_call(alloc, scene, urb, call)?;
                Ok(self.submit(pass, UrbId(urb), t))
            }
            HostCall::Unlink(urb) => Ok(self.unlink(pass, UrbId(urb))),
            HostCall::Kill(urb) => self.kill(alloc, pass, UrbId(urb)),
            HostCall::Poison(urb) => self.poison(alloc, pass, UrbId(urb)),
            HostCall::Unpoison(urb) => Ok(self.unpoison(pass, UrbId(urb))),
            HostCall::Block(urb) => Ok(self.block(pass, UrbId(urb))),
            HostCall::Unblock(urb) => Ok(self.unblock(pass, UrbId(urb))),
            HostCall::Serve => self.serve_all(alloc),
            HostCall::Down => self.take_down(alloc),
            HostCall::Up => Ok(self.bring_up()),
            HostCall::Absent => Ok(self.refuse()),
            HostCall::Other => Ok(CallAnswer::Nothing),
        }
    }

    /// Makes a thread's calls in order, and adds each with its answer.
    pub fn make_all(
        &mut self,
        alloc: Global,
        scene: &Scene,
        bindings: &[Bound],
        thread: u32,
        calls: &[Call],
        made: &mut List<CallMade>,
    ) -> Result<(), Memory>
        requires good { IsWellFormed scene.now }
        requires bound { bindings.now ≡ bindings_of scene.now }
        requires there { thread < length scene.now.threads }
        requires script { calls_from 0 (take (thread + 1) scene.now.threads) ≡ calls_from 0 (take thread scene.now.threads) ++ map (λ call. (thread, call)) calls.now }
        requires underway { IsUnderway scene.now (calls_from 0 (take thread scene.now.threads)) self.old made.old }
        ensures { IfOk result (λ _. IsUnderway scene.now (calls_from 0 (take (thread + 1) scene.now.threads)) self.new made.new) }
    {
        for call in calls {
            let answer = self.make(alloc, scene, bindings, thread, call)?;
            made.push(CallMade {
                thread,
                line: call.line,
                operation: call.operation(),
                target: call.target,
                answer,
            })?;
        }
        Ok(())
    }
}
