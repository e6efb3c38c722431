//! A thread that makes the calls of its script.
ghost use Rattle.std.specs.Prelude.{◌≡◌, ℕ, Some, slice_get, IfOk};
ghost use Rattle.usb_machine.specs.Fresh.{Sound};
ghost use Rattle.usb_scene.specs.declared.scene.SceneThread.{SceneThread};
ghost use Rattle.usb_scene.specs.WellFormed.{IsWellFormed};
ghost use Rattle.usb_trace.specs.Plan.{machine_of, host_call_of};
ghost use Rattle.usb_trace.specs.Run.{down_after};
ghost use Rattle.usb_threads.specs.NextCall.{MayCall};
ghost use Rattle.usb_threads.specs.Calling.{IsNew, HasCalled, WorkedSo};
ghost use Rattle.usb_threads.specs.Jobs.{HasWorkedOn};

use crate::clock::Clock;
use crate::scene_host::SceneHost;
use std::alloc::Global;
use std::sync::Wait;
use usb_scene::{Call, Scene};
use usb_trace::{CallAnswer, CallMade, HostCall};
use usb_types::{Code, Errno, Gate, List, Memory};

/// A thread's number, and its seat.
#[derive(Drop)]
pub struct Job<S> {
    pub thread: u32,
    pub seat: S,
}

/// A thread's calls with their answers, where there was memory, and its seat.
#[derive(Drop)]
pub struct Work<S> {
    pub made: Result<List<CallMade>, Memory>,
    pub seat: S,
}

// Whether the host is down after a call.
fn is_down_after<H: SceneHost>(host: &H, call: &Call, answer: CallAnswer, down: bool) -> bool
    ensures { result ≡ down_after down (host_call_of (H.scene host.now) call.now) answer }
{
    match host.host_call(call) {
        HostCall::Down => down || matches!(answer, CallAnswer::Done),
        HostCall::Up => false,
        _ => down,
    }
}

// Makes one call of a thread.
fn make<H: SceneHost, R: Wait>(
    rt: &R,
    alloc: Global,
    host: &H,
    clock: &Clock,
    seat: &mut H::Seat,
    thread: u32,
    call: &Call,
    down: bool,
) -> Result<CallAnswer, Memory>
    requires good { IsWellFormed (H.scene host.now) }
    requires here { H.is_of host.now seat.old }
    requires sound { Sound (machine_of (H.scene host.now)) (H.known seat.old) }
    requires may { MayCall (H.scene host.now) (H.known seat.old) thread call.now down }
    ensures here { H.is_of host.now seat.new }
    ensures called { IfOk result (HasCalled (H.scene host.now) (H.known seat.old) (H.known seat.new) thread call.now down) }
{
    match host.host_call(call) {
        HostCall::Submit(urb) => {
            let code = host.submit(rt, alloc, seat, urb, call)?;
            Ok(CallAnswer::Code(code))
        }
        HostCall::Unlink(urb) => Ok(CallAnswer::Code(host.unlink(rt, seat, urb))),
        HostCall::Kill(urb) => Ok(CallAnswer::Buffer(host.kill(rt, seat, urb))),
        HostCall::Poison(urb) => Ok(CallAnswer::Buffer(host.poison(rt, seat, urb))),
        HostCall::Unpoison(urb) => {
            host.withdraw(rt, seat, urb);
            Ok(CallAnswer::Done)
        }
        HostCall::Block(urb) => {
            host.reject(rt, seat, urb);
            Ok(CallAnswer::Done)
        }
        HostCall::Unblock(urb) => {
            host.withdraw(rt, seat, urb);
            Ok(CallAnswer::Done)
        }
        HostCall::Serve => {
            clock.wait_settled(rt);
            Ok(CallAnswer::Nothing)
        }
        HostCall::Down => {
            if down {
                return Ok(CallAnswer::Code(Code::Fault(Errno::ESHUTDOWN)));
            }
            host.take_down(rt, alloc, seat)?;
            Ok(CallAnswer::Done)
        }
        HostCall::Up => {
            if down {
                host.bring_up(rt, seat);
                return Ok(CallAnswer::Done);
            }
            Ok(CallAnswer::Done)
        }
        HostCall::Absent => Ok(CallAnswer::Code(Code::Fault(Errno::ENODEV))),
        HostCall::Other => unreachable!(),
    }
}

// Makes the calls of a thread in their order, and keeps each with its answer.
fn make_all<H: SceneHost, R: Wait, G: Gate>(
    rt: &R,
    alloc: Global,
    host: &H,
    gate: &G,
    clock: &Clock,
    calls: &[Call],
    thread: u32,
    seat: &mut H::Seat,
) -> Result<List<CallMade>, Memory>
    requires good { IsWellFormed (H.scene host.now) }
    requires here { H.is_of host.now seat.old }
    requires script { (t : SceneThread) × (slice_get (H.scene host.now).threads thread ≡ Some t) × (t.calls ≡ calls.now) }
    requires new { IsNew (H.scene host.now) thread (H.known seat.old) }
    ensures here { H.is_of host.now seat.new }
    ensures worked { IfOk result (WorkedSo (H.scene host.now) thread calls.now (H.known seat.old) (H.known seat.new)) }
{
    let mut made = List::of(Vec::new(alloc));
    let mut down = false;
    for call in calls {
        gate.pass(rt, 2 * call.line);
        let answer = make(rt, alloc, host, clock, seat, thread, call, down)?;
        gate.pass(rt, 2 * call.line + 1);
        down = is_down_after(host, call, answer, down);
        made.push(CallMade {
            thread,
            line: call.line,
            operation: call.operation(),
            target: call.target,
            answer,
        })?;
    }
    Ok(made)
}

/// Makes the calls of a thread's script, when all threads have started.
pub fn run_job<H: SceneHost, R: Wait, G: Gate>(
    rt: &R,
    alloc: Global,
    host: &H,
    gate: &G,
    scene: &Scene,
    clock: &Clock,
    job: Job<H::Seat>,
) -> Work<H::Seat>
    requires good { IsWellFormed (H.scene host.now) }
    requires scene { scene.now ≡ H.scene host.now }
    requires here { H.is_of host.now job.seat }
    requires new { IsNew (H.scene host.now) job.thread (H.known job.seat) }
    ensures { HasWorkedOn (H.is_of host.now) H.known (H.scene host.now) job result }
{
    let Job { thread, mut seat } = job;
    let calls = scene.threads.items()[thread as usize].calls.items();
    clock.start_together();
    let made = make_all(rt, alloc, host, gate, clock, calls, thread, &mut seat);
    Work { made, seat }
}
