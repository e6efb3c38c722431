//! The line that says how the run of a number's scene goes.
ghost use Rattle.std.specs.Prelude.{◌≡◌, ◌++◌, IfOk, OnOk, decimal};
ghost use Rattle.usb_scene.specs.WellFormed.{IsWellFormed};
ghost use Rattle.usb_line.specs.Outcome.{IsOutcome};
ghost use Rattle.usb_summary.specs.Counts.{counts_line};
ghost use Rattle.usb_summary.specs.Summed.{IsSummed};

use crate::counts::{Counts, count};
use std::alloc::Global;
use usb_generate::generate;
use usb_line::run_line;
use usb_prepare::prepare;
use usb_scene::Scene;
use usb_text::push_number;
use usb_trace::RunOutcome;
use usb_types::{Buf, Memory};

// The run of a scene in line order.
fn run(alloc: Global, scene: &Scene) -> Result<RunOutcome, Memory>
    requires { IsWellFormed scene.now }
    ensures { IfOk result (IsOutcome scene.now) }
{
    let prepared = prepare(alloc, scene)?;
    run_line(alloc, scene, prepared)
}

// Adds some words, and a number.
fn push_count(report: &mut Buf, words: &[u8], count: u64) -> Result<(), Memory>
    ensures { OnOk result (report.new ≡ report.old ++ (words.now ++ decimal count)) }
{
    report.append(words)?;
    push_number(report, count)
}

fn push_counts(report: &mut Buf, number: u32, counts: Counts) -> Result<(), Memory>
    ensures { OnOk result (report.new ≡ report.old ++ counts_line number counts) }
{
    push_count(report, b"gen ", number as u64)?;
    push_count(report, b" calls 2000 accepted ", counts.accepted)?;
    push_count(report, b" refused ", counts.refused)?;
    push_count(report, b" given ", counts.given)?;
    push_count(report, b" bytes ", counts.bytes)?;
    report.append(b"\n")
}

/// Runs the scene of a number in line order, and adds the line that says how the run went.
pub fn summary(alloc: Global, number: u32, report: &mut Buf) -> Result<(), Memory>
    ensures { OnOk result (IsSummed number report.old report.new) }
{
    let scene = generate(alloc, number)?;
    let outcome = run(alloc, &scene)?;
    push_counts(report, number, count(&outcome))
}
