//! The run of a scene in line order.
ghost use Rattle.std.specs.Prelude.{◌≡◌, [], map, length, List, IfOk};
ghost use Rattle.usb_scene.specs.declared.scene.Scene.{Scene};
ghost use Rattle.usb_scene.specs.WellFormed.{IsWellFormed};
ghost use Rattle.usb_prepare.specs.Prepared.{bindings_of, found_of, probes_of};
ghost use Rattle.usb_prepare.specs.Ready.{IsPrepared};
ghost use Rattle.usb_trace.specs.Plan.{calls_of};
ghost use Rattle.usb_trace.specs.Run.{Giveback, drivers_told};
ghost use Rattle.usb_trace.specs.Rows.{made_of, outcome_of};
ghost use Rattle.usb_line.specs.Line.{Progress};
ghost use Rattle.usb_line.specs.Shows.{Shows};
ghost use Rattle.usb_trace.specs.Handlers.{ShowsCores};
ghost use Rattle.usb_line.specs.Calls.{IsUnderway};
ghost use Rattle.usb_line.specs.Outcome.{received_at, IsOutcome};

use crate::prepare::{OpenedRun, opening};
use crate::run::{EndRow, LineRun};
use std::alloc::Global;
use usb_bind::{Board, Bound};
use usb_class::{Core, Told};
use usb_prepare::{Found, Prepared};
use usb_scene::Scene;
use usb_trace::{CallMade, EndReceived, RunOutcome, main_pass_of};
use usb_types::{List, Memory};

// What each endpoint acknowledged.
fn received(alloc: Global, ends: Vec<EndRow>) -> Result<List<EndReceived>, Memory>
    ensures { IfOk result (λ list. list ≡ map received_at ends.items) }
{
    let mut list = List::of(Vec::new(alloc));
    for end in ends {
        list.push(EndReceived {
            shape: end.shape,
            received: end.received,
        })?;
    }
    Ok(list)
}

// What each core reports.
fn told(alloc: Global, cores: Vec<Core>) -> Result<List<Told>, Memory>
    ensures { IfOk result (λ list. (s : Scene) (rounds : List Giveback) → ShowsCores s rounds cores.items → list ≡ drivers_told s rounds) }
{
    let mut list = List::of(Vec::new(alloc));
    for core in cores {
        list.push(core.into_told())?;
    }
    Ok(list)
}

// Makes the calls of all threads, one thread after another, and adds each with its answer.
fn make_calls(
    alloc: Global,
    scene: &Scene,
    bindings: &[Bound],
    run: &mut LineRun<'_>,
    made: &mut List<CallMade>,
) -> Result<(), Memory>
    requires good { IsWellFormed scene.now }
    requires bound { bindings.now ≡ bindings_of scene.now }
    requires underway { IsUnderway scene.now [] run.old made.old }
    ensures { IfOk result (λ _. IsUnderway scene.now (calls_of scene.now) run.new made.new) }
{
    for (i, thread) in scene.threads.items().iter().enumerate() {
        run.make_all(alloc, scene, bindings, i as u32, thread.calls.items(), made)?;
    }
    Ok(())
}

// What a run leaves for its report.
fn leaves(
    alloc: Global,
    run: LineRun<'_>,
    found: List<Found>,
    board: Board,
    made: List<CallMade>,
) -> Result<RunOutcome, Memory>
    ensures { IfOk result (λ o. (s : Scene) (f : Progress) → found ≡ found_of s → board ≡ (probes_of s).board → made ≡ map made_of f.call_records
        → Shows s f run.entry → o ≡ outcome_of s f.call_records f.rounds) }
{
    let told = told(alloc, run.cores)?;
    let ends = received(alloc, run.ends)?;
    Ok(RunOutcome {
        found,
        board,
        made,
        given: List::of(run.given),
        told,
        ends,
    })
}

/// Makes the calls of a prepared scene one after another, and closes.
pub fn run_line(alloc: Global, scene: &Scene, prepared: Prepared<'_>) -> Result<RunOutcome, Memory>
    requires good { IsWellFormed scene.now }
    requires prepared { IsPrepared scene.now prepared }
    ensures { IfOk result (IsOutcome scene.now) }
{
    let main = main_pass_of(scene);
    let OpenedRun {
        mut run,
        found,
        board,
    } = opening(alloc, scene, prepared)?;
    run.submit_reads(alloc, main)?;
    let mut made = List::of(Vec::new(alloc));
    make_calls(alloc, scene, board.bindings(), &mut run, &mut made)?;
    run.close(alloc, main)?;
    leaves(alloc, run, found, board, made)
}
