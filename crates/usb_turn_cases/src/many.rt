//! As many threads as there are passes, which add to one tally.
ghost use Rattle.std.specs.Prelude.{◌≡◌, ℕ, ◌<◌, ◌≤◌, List, All, IfOk, length};
ghost use Rattle.usb_turn.specs.Rows.{part};
ghost use Rattle.usb_turn_cases.specs.History.{IsTotalOf, by_of};
ghost use Rattle.usb_turn_cases.specs.Ran.{IsIdle, Ran, RanAll};
ghost use Rattle.usb_turn_cases.specs.declared.entry.Entry.{Entry};

use crate::shared::SharedTally;
use crate::tally::Tally;
use crate::two::add_threes;
use std::alloc::{AllocError, Global};
use std::sync::Wait;
use std::thread::{self, Threads};
use usb_turn::{TurnPass, Turns};
use usb_types::Memory;

/// A thread for each pass.
fn run_all<R: Threads + Wait + Sync>(
    rt: &R,
    host: &SharedTally,
    passes: Vec<TurnPass<Tally>>,
    times: u32,
) -> Result<Vec<TurnPass<Tally>>, AllocError>
    requires { All (λ p. IsIdle host.now p) passes.items }
    ensures { IfOk result (λ v. RanAll times passes.items v.items) }
{
    thread::map_vec(
        rt,
        passes,
        &|pass: TurnPass<Tally>| -> TurnPass<Tally>
            requires { IsIdle host.now pass }
            ensures { Ran times pass result }
        { add_threes(rt, host, pass, times) },
    )
}

/// The total that this many threads come to, which add 3 so many times each. It is that of a legal history in which each
/// pass has as many calls as it made.
pub fn add_in_threads<R: Threads + Wait + Sync>(
    rt: &R,
    alloc: Global,
    threads: u32,
    times: u32,
) -> Result<u64, Memory>
    requires { (1 ≤ threads) × (threads ≤ 66) }
    ensures { IfOk result (λ n. (rows : List Entry) × IsTotalOf n rows × ((k : ℕ) → k < threads → length (part by_of k rows) ≡ times)) }
{
    let (turns, passes) = Turns::new(alloc, Tally::new(), threads)?;
    let host = SharedTally { turns };
    let Ok(ran) = run_all(rt, &host, passes, times) else {
        return Err(Memory);
    };
    let SharedTally { turns } = host;
    Ok(turns.close(ran).total)
}
