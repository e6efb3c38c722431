//! The whole runs, over the host that callers take by turns.
ghost use Rattle.std.specs.Prelude.{◌≡◌, ◌+◌, ◌<◌, ◌≤◌, ℕ, Option, IfOk};
ghost use Rattle.usb_types.specs.declared.errno.Code.{Code};
ghost use Rattle.usb_machine.specs.Plain.{IsLayout};
ghost use Rattle.usb_machine.specs.Replay.{machine_for};
ghost use Rattle.usb_machine.specs.History.{HasHome};
ghost use Rattle.usb_machine.specs.Legal.{IsLegal};
ghost use Rattle.usb_machine.specs.Parts.{part_of};
ghost use Rattle.usb_machine.specs.Calls.{kill_entries, poison_entries};
ghost use Rattle.usb_machine.specs.HostCalls.{IsUrb};

use crate::kills::kill_and_meet;
use crate::many::poison_in_threads;
use crate::opened::{open_two, opened_and_closed};
use std::alloc::Global;
use std::sync::Wait;
use std::thread::Threads;
use usb_machine::{Layout, Transfer};
use usb_turn::Ended;
use usb_turn_host::{Stock, TurnHost};
use usb_types::{Memory, UrbId};

/// A poison by pass 2 and a kill by pass 3, in two threads.
pub fn run_by_turns<R: Threads + Wait + Sync>(
    rt: &R,
    alloc: Global,
    layout: Layout,
    urb: UrbId,
) -> Result<Ended<Stock>, Memory>
    requires layout { IsLayout layout }
    requires urb { IsUrb (machine_for layout 2) urb.0 }
    requires only { (u : ℕ) → HasHome (machine_for layout 2) u → u ≡ urb.0 }
    ensures legal { IfOk result (λ c. IsLegal (machine_for layout 2) c) }
    ensures poison { IfOk result (λ c. (m : Code) × (x : Option ℕ) × part_of c 2 ≡ poison_entries 2 urb.0 m x) }
    ensures kill { IfOk result (λ c. (m : Code) × (x : Option ℕ) × part_of c 3 ≡ kill_entries 3 urb.0 m x) }
{
    opened_and_closed::<TurnHost, R>(rt, alloc, layout, urb)
}

/// A poison by each pass, in as many threads.
pub fn poison_by_turns<R: Threads + Wait + Sync>(
    rt: &R,
    alloc: Global,
    layout: Layout,
    passes: u32,
    urb: UrbId,
) -> Result<Ended<Stock>, Memory>
    requires passes { (0 < passes) × (passes ≤ 64) }
    requires layout { IsLayout layout }
    requires urb { IsUrb (machine_for layout passes) urb.0 }
    requires only { (u : ℕ) → HasHome (machine_for layout passes) u → u ≡ urb.0 }
    ensures legal { IfOk result (λ c. IsLegal (machine_for layout passes) c) }
    ensures poisons { IfOk result (λ c. (k : ℕ) → k < passes → (rest : Option ℕ) × (a : Code) × part_of c (2 + k) ≡ poison_entries (2 + k) urb.0 a rest) }
{
    poison_in_threads::<TurnHost, R>(rt, alloc, layout, passes, urb)
}

/// What two kills in two threads answer, on a new host.
pub fn kills_by_turns<R: Threads + Wait + Sync>(
    rt: &R,
    alloc: Global,
    layout: Layout,
    urb: UrbId,
) -> Result<(Option<Transfer>, Option<Transfer>), Memory>
    requires layout { IsLayout layout }
    requires urb { IsUrb (machine_for layout 2) urb.0 }
{
    let (parts, two) = open_two::<TurnHost, R>(rt, alloc, layout)?;
    let (a, b) = two;
    let (first, second) = kill_and_meet(rt, &parts.host, a, b, urb);
    let (_a, x) = first;
    let (_b, y) = second;
    Ok((x, y))
}
