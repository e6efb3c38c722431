//! How main ends a run.
ghost use Rattle.std.specs.Prelude.{◌≡◌, List};
ghost use Rattle.usb_machine.specs.declared.entry.Entry.{Entry};
ghost use Rattle.usb_machine.specs.Fresh.{Sound};
ghost use Rattle.usb_trace.specs.Plan.{machine_of, main_pass};
ghost use Rattle.usb_threads.specs.Passes.{WentOn};
ghost use Rattle.usb_threads.specs.MainPass.{HasClosed};
ghost use Rattle.usb_threads.specs.Calm.{IsCalm};

use crate::scene_host::SceneHost;
use std::sync::Wait;
use usb_trace::CallMade;
use usb_types::List;

/// Main's seat, those of the threads, and their calls in order with their answers.
#[derive(Drop)]
pub struct Ended<S> {
    pub main: S,
    pub seats: Vec<S>,
    pub made: List<CallMade>,
}

/// Main kills each URB, and then sees each quiet under a reject.
pub fn close_down<H: SceneHost, R: Wait>(rt: &R, host: &H, main: &mut H::Seat)
    requires here { H.is_of host.now main.old }
    requires number { (H.known main.old).number ≡ main_pass (H.scene host.now) }
    requires sound { Sound (machine_of (H.scene host.now)) (H.known main.old) }
    requires calm { IsCalm (H.known main.old) }
    ensures here { H.is_of host.now main.new }
    ensures closed { (more : List Entry) × WentOn (machine_of (H.scene host.now)) (H.known main.old) (H.known main.new) more × HasClosed (H.scene host.now) (H.known main.new).seen more }
{
    let urbs = host.urbs();
    for u in 0..urbs {
        host.kill(rt, main, u);
    }
    for v in 0..urbs {
        host.see_quiet(rt, main, v);
    }
}
