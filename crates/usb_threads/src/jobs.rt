//! The jobs of the threads: how they are dealt, and how their results are collected.
ghost use Rattle.std.specs.Prelude.{◌≡◌, ◌≤◌, length, IfOk};
ghost use Rattle.usb_machine.specs.Fresh.{Looked, Sound};
ghost use Rattle.usb_trace.specs.Plan.{machine_of};
ghost use Rattle.usb_threads.specs.Jobs.{Each, IsSeatFor, IsJob, IsWork, Collected};

use crate::scene_host::SceneHost;
use crate::worker::{Job, Work};
use std::alloc::Global;
use std::snapshot::Snapshot;
use std::sync::Wait;
use usb_trace::CallMade;
use usb_types::{List, Memory};

/// Deals the seats to the threads, the last one first. Each seat has then seen what main had.
pub fn deal_jobs<H: SceneHost, R: Wait>(
    rt: &R,
    alloc: Global,
    host: &H,
    main: &mut H::Seat,
    mut seats: Vec<H::Seat>,
) -> Result<Vec<Job<H::Seat>>, Memory>
    requires main { H.is_of host.now main.old }
    requires sound { Sound (machine_of (H.scene host.now)) (H.known main.old) }
    requires few { length seats.items ≤ 16 }
    requires seats { Each (IsSeatFor (H.is_of host.now) H.known (H.scene host.now)) seats.items }
    ensures main { H.is_of host.now main.new }
    ensures later { Looked (machine_of (H.scene host.now)) (H.known main.old) (H.known main.new) }
    ensures count { IfOk result (λ jobs. length jobs.items ≡ length seats.items) }
    ensures jobs { IfOk result (λ jobs. Each (IsJob (H.is_of host.now) H.known (H.scene host.now) (H.known main.old) (length seats.items)) jobs.items) }
{
    let mut jobs = Vec::new(alloc);
    while let Some(mut seat) = seats.pop() {
        let thread = seats.len() as u32;
        host.meet(rt, &mut seat, main);
        let Ok(()) = jobs.push(Job { thread, seat }) else {
            return Err(Memory);
        };
    }
    Ok(jobs)
}

/// Collects the results, the first thread's first: main meets each seat, and keeps it with the thread's calls.
pub fn collect<H: SceneHost, R: Wait>(
    rt: &R,
    alloc: Global,
    host: &H,
    read: &Snapshot<H::Seat>,
    main: &mut H::Seat,
    mut works: Vec<Work<H::Seat>>,
) -> Result<(Vec<H::Seat>, List<CallMade>), Memory>
    requires main { H.is_of host.now main.old }
    requires sound { Sound (machine_of (H.scene host.now)) (H.known main.old) }
    requires works { Each (IsWork (H.is_of host.now) H.known (H.scene host.now) (H.known read.now.value) (length works.items)) works.items }
    ensures main { H.is_of host.now main.new }
    ensures meets { IfOk result (λ r. Looked (machine_of (H.scene host.now)) (H.known main.old) (H.known main.new)) }
    ensures count { IfOk result (λ r. length r.0.items ≡ length works.items) }
    ensures collected { IfOk result (λ r. Collected (H.is_of host.now) H.known (H.scene host.now) (H.known read.now.value) (H.known main.new) r.0.items r.1) }
{
    let mut seats = Vec::new(alloc);
    let mut made = List::of(Vec::new(alloc));
    while let Some(
        Work {
            made: told,
            mut seat,
        },
    ) = works.pop()
    {
        let told = told?;
        host.meet(rt, main, &mut seat);
        made.append(told)?;
        let Ok(()) = seats.push(seat) else {
            return Err(Memory);
        };
    }
    Ok((seats, made))
}
