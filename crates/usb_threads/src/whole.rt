//! The run of a scene, with one thread a script.
ghost use Rattle.std.specs.Prelude.{◌≡◌, ◌≤◌, ℕ, List, [], length, IfOk};
ghost use Rattle.usb_machine.specs.declared.entry.Entry.{Entry};
ghost use Rattle.usb_machine.specs.Fresh.{Looked, Sound};
ghost use Rattle.usb_scene.specs.WellFormed.{IsWellFormed};
ghost use Rattle.usb_prepare.specs.Layout.{urb_count};
ghost use Rattle.usb_trace.specs.Plan.{machine_of, main_pass};
ghost use Rattle.usb_trace.specs.Run.{Giveback};
ghost use Rattle.usb_threads.specs.Passes.{WentOn};
ghost use Rattle.usb_threads.specs.MainPass.{HasRead};
ghost use Rattle.usb_threads.specs.Controlling.{HasControlled, IsIdle};
ghost use Rattle.usb_threads.specs.Jobs.{Each, IsSeatFor, IsJob};
ghost use Rattle.usb_threads.specs.Calm.{IsCalm};
ghost use Rattle.usb_threads.specs.Wholes.{IsOpened, IsMains, HasStarted, HasEnded, IsAllIn, HasRun};

use crate::clock::Clock;
use crate::controller::{Controlled, control};
use crate::ending::{Ended, close_down};
use crate::jobs::{collect, deal_jobs};
use crate::opened::Opened;
use crate::scene_host::{Left, SceneHost};
use crate::scripts::run_scripts;
use crate::worker::Job;
use std::alloc::Global;
use std::snapshot::Snapshot;
use std::sync::Wait;
use std::thread::{Threads, join};
use usb_scene::Scene;
use usb_trace::{CallMade, GivebackRow};
use usb_types::{Gate, List, Memory};

/// What a run leaves: the closed host, the calls that were made in the order of their threads, the givebacks in the order in
/// which they were made, and what is left for the report.
#[derive(Drop)]
pub struct Run<C> {
    pub closed: C,
    pub made: List<CallMade>,
    pub given: List<GivebackRow>,
    pub left: Left,
}

// Main submits the drivers' reads.
fn read_all<H: SceneHost, R: Wait>(
    rt: &R,
    alloc: Global,
    host: &H,
    main: &mut H::Seat,
) -> Result<(), Memory>
    requires here { H.is_of host.now main.old }
    requires main { IsMains (H.scene host.now) (H.known main.old) }
    ensures here { H.is_of host.now main.new }
    ensures read { IfOk result (λ _. (more : List Entry) × WentOn (machine_of (H.scene host.now)) (H.known main.old) (H.known main.new) more × HasRead (H.scene host.now) (urb_count (H.scene host.now)) more) }
{
    let urbs = host.urbs();
    for u in 0..urbs {
        host.read(rt, alloc, main, u)?;
    }
    Ok(())
}

// Main's part beside the controller: it joins the scripts' threads, collects what they came to, and closes.
fn run_main<H: SceneHost + Sync, R: Threads + Wait + Sync, G: Gate + Sync>(
    rt: &R,
    alloc: Global,
    gate: &G,
    host: &H,
    scene: &Scene,
    read: &Snapshot<H::Seat>,
    clock: &Clock,
    mut main: H::Seat,
    jobs: Vec<Job<H::Seat>>,
) -> Result<Ended<H::Seat>, Memory>
    requires good { IsWellFormed (H.scene host.now) }
    requires scene { scene.now ≡ H.scene host.now }
    requires here { H.is_of host.now main }
    requires number { (H.known main).number ≡ main_pass (H.scene host.now) }
    requires sound { Sound (machine_of (H.scene host.now)) (H.known main) }
    requires calm { IsCalm (H.known main) }
    requires later { Looked (machine_of (H.scene host.now)) (H.known read.now.value) (H.known main) }
    requires jobs { Each (IsJob (H.is_of host.now) H.known (H.scene host.now) (H.known read.now.value) (length jobs.items)) jobs.items }
    ensures { IfOk result (HasEnded (H.is_of host.now) H.known (H.scene host.now) (H.known read.now.value) (length jobs.items)) }
{
    if !clock.has_turns() {
        return Err(Memory);
    }
    let Ok(works) = run_scripts(rt, alloc, host, gate, scene, clock, jobs) else {
        return Err(Memory);
    };
    let (seats, made) = collect(rt, alloc, host, read, &mut main, works)?;
    close_down(rt, host, &mut main);
    Ok(Ended { main, seats, made })
}

// The controller beside main's part.
fn run_both<H: SceneHost + Sync, R: Threads + Wait + Sync, G: Gate + Sync>(
    rt: &R,
    alloc: Global,
    gate: &G,
    host: &H,
    scene: &Scene,
    read: &Snapshot<H::Seat>,
    main: H::Seat,
    jobs: Vec<Job<H::Seat>>,
    server: H::Server,
) -> (Controlled<H::Server>, Result<Ended<H::Seat>, Memory>)
    requires good { IsWellFormed (H.scene host.now) }
    requires scene { scene.now ≡ H.scene host.now }
    requires here { H.is_of host.now main }
    requires number { (H.known main).number ≡ main_pass (H.scene host.now) }
    requires sound { Sound (machine_of (H.scene host.now)) (H.known main) }
    requires calm { IsCalm (H.known main) }
    requires later { Looked (machine_of (H.scene host.now)) (H.known read.now.value) (H.known main) }
    requires jobs { Each (IsJob (H.is_of host.now) H.known (H.scene host.now) (H.known read.now.value) (length jobs.items)) jobs.items }
    requires server { H.serves host.now server }
    requires after { H.after host.now server [] }
    requires idle { IsIdle (H.scene host.now) (H.own server) }
    ensures server { H.serves host.now result.0.server }
    ensures controlled { IfOk result.0.given (HasControlled (H.scene host.now) (H.after host.now result.0.server) (H.own server) (H.own result.0.server)) }
    ensures ended { IfOk result.1 (HasEnded (H.is_of host.now) H.known (H.scene host.now) (H.known read.now.value) (length jobs.items)) }
{
    let clock = Clock::new(scene.threads.items().len() as u64);
    join(
        rt,
        || -> Controlled<H::Server>
            requires { H.serves host.now server × H.after host.now server [] × IsIdle (H.scene host.now) (H.own server) }
            ensures { H.serves host.entry.now result.server × IfOk result.given (HasControlled (H.scene host.entry.now) (H.after host.entry.now result.server) (H.own server) (H.own result.server)) }
        { control(rt, alloc, host, &clock, server) },
        || -> Result<Ended<H::Seat>, Memory>
            requires { IsWellFormed (H.scene host.now) × (scene.now ≡ H.scene host.now) × H.is_of host.now main × ((H.known main).number ≡ main_pass (H.scene host.now)) × Sound (machine_of (H.scene host.now)) (H.known main) × IsCalm (H.known main) × Looked (machine_of (H.scene host.now)) (H.known read.now.value) (H.known main) × Each (IsJob (H.is_of host.now) H.known (H.scene host.now) (H.known read.now.value) (length jobs.items)) jobs.items }
            ensures { IfOk result (HasEnded (H.is_of host.entry.now) H.known (H.scene host.entry.now) (H.known read.entry.now.value) (length jobs.items)) }
        {
            let ended = run_main(rt, alloc, gate, host, scene, read, &clock, main, jobs);
            clock.end();
            ended
        },
    )
}

// Main reads, and meets the server and the threads' seats.
fn start<H: SceneHost, R: Wait>(
    rt: &R,
    alloc: Global,
    host: &H,
    main: &mut H::Seat,
    server: &mut H::Server,
    threads: Vec<H::Seat>,
) -> Result<(Vec<Job<H::Seat>>, Snapshot<H::Seat>), Memory>
    requires here { H.is_of host.now main.old }
    requires main { IsMains (H.scene host.now) (H.known main.old) }
    requires server { H.serves host.now server.old }
    requires few { length threads.items ≤ 16 }
    requires threads { Each (IsSeatFor (H.is_of host.now) H.known (H.scene host.now)) threads.items }
    ensures here { H.is_of host.now main.new }
    ensures server { H.serves host.now server.new }
    ensures after { (rounds : List Giveback) → H.after host.now server.old rounds → H.after host.now server.new rounds }
    ensures started { IfOk result (λ r. HasStarted (H.scene host.now) (H.known main.old) (H.known r.1.value) (H.known main.new) (H.own server.old) (H.own server.new)) }
    ensures count { IfOk result (λ r. length r.0.items ≡ length threads.items) }
    ensures jobs { IfOk result (λ r. Each (IsJob (H.is_of host.now) H.known (H.scene host.now) (H.known r.1.value) (length threads.items)) r.0.items) }
{
    read_all(rt, alloc, host, main)?;
    let read = Snapshot::of(&*main);
    host.meet_server(rt, server, main);
    let jobs = deal_jobs(rt, alloc, host, main, threads)?;
    Ok((jobs, read))
}

// Ends the history, with all seats in hand.
fn finish<H: SceneHost>(
    alloc: Global,
    host: H,
    spare: H::Spare,
    controlled: Controlled<H::Server>,
    ended: Ended<H::Seat>,
) -> Result<Run<H::Closed>, Memory>
    requires good { IsWellFormed (H.scene host) }
    requires spare { H.is_spare host spare }
    requires server { H.serves host controlled.server }
    requires all { IfOk controlled.given (IsAllIn (H.is_of host) H.known (H.scene host) (H.after host controlled.server) (H.own controlled.server) ended) }
    ensures { IfOk result (λ run. HasRun (H.scene host) (H.history run.closed) run.made run.given run.left) }
{
    let Ended { main, seats, made } = ended;
    let Controlled { server, given } = controlled;
    let given = given?;
    let (closed, left) = host.close(alloc, seats, main, spare, server)?;
    Ok(Run {
        closed,
        made,
        given,
        left,
    })
}

/// Runs a scene with one thread a script, beside the controller's. What comes back is a run of the scene, in whatever order the
/// threads made their steps. Where a thread, main or the controller lacks memory, all others still come to their end.
pub fn run_threads<H: SceneHost + Sync, R: Threads + Wait + Sync, G: Gate + Sync>(
    rt: &R,
    alloc: Global,
    gate: &G,
    scene: &Scene,
    host: H,
    opened: Opened<H::Seat, H::Spare, H::Server>,
) -> Result<Run<H::Closed>, Memory>
    requires good { IsWellFormed scene.now }
    requires scene { scene.now ≡ H.scene host }
    requires opened { IsOpened (H.is_of host) H.known (H.serves host) H.own (H.is_spare host) (H.scene host) opened }
    requires after { H.after host opened.server [] }
    ensures { IfOk result (λ run. HasRun scene.now (H.history run.closed) run.made run.given run.left) }
{
    let Opened {
        mut main,
        threads,
        spare,
        mut server,
    } = opened;
    let (jobs, read) = start(rt, alloc, &host, &mut main, &mut server, threads)?;
    let (controlled, ended) = run_both(rt, alloc, gate, &host, scene, &read, main, jobs, server);
    finish(alloc, host, spare, controlled, ended?)
}
