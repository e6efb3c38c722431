//! A thread for each script.
ghost use Rattle.std.specs.Prelude.{◌≡◌, All, IfOk};
ghost use Rattle.usb_scene.specs.WellFormed.{IsWellFormed};
ghost use Rattle.usb_threads.specs.Calling.{IsNew};
ghost use Rattle.usb_threads.specs.Jobs.{HasWorkedOn, HaveWorked};

use crate::clock::Clock;
use crate::scene_host::SceneHost;
use crate::worker::{Job, Work, run_job};
use std::alloc::{AllocError, Global};
use std::sync::Wait;
use std::thread::{self, Threads};
use usb_scene::Scene;
use usb_types::Gate;

/// A thread for each job.
pub fn run_scripts<H: SceneHost + Sync, R: Threads + Wait + Sync, G: Gate + Sync>(
    rt: &R,
    alloc: Global,
    host: &H,
    gate: &G,
    scene: &Scene,
    clock: &Clock,
    jobs: Vec<Job<H::Seat>>,
) -> Result<Vec<Work<H::Seat>>, AllocError>
    requires good { IsWellFormed (H.scene host.now) }
    requires scene { scene.now ≡ H.scene host.now }
    requires jobs { All (λ job. H.is_of host.now job.seat × IsNew (H.scene host.now) job.thread (H.known job.seat)) jobs.items }
    ensures { IfOk result (λ works. HaveWorked (H.is_of host.now) H.known (H.scene host.now) jobs.items works.items) }
{
    thread::map_vec(
        rt,
        jobs,
        &|job: Job<H::Seat>| -> Work<H::Seat>
            requires { IsWellFormed (H.scene host.now) × (scene.now ≡ H.scene host.now) × H.is_of host.now job.seat × IsNew (H.scene host.now) job.thread (H.known job.seat) }
            ensures { HasWorkedOn (H.is_of host.entry.now) H.known (H.scene host.entry.now) job result }
        { run_job(rt, alloc, host, gate, scene, clock, job) },
    )
}
