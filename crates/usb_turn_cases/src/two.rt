//! Two threads that add to one tally.
ghost use Rattle.std.specs.Prelude.{◌≡◌, [], ◌∷◌, List, length, IfOk};
ghost use Rattle.usb_turn.specs.Rows.{part};
ghost use Rattle.usb_turn.specs.Pass.{fresh};
ghost use Rattle.usb_turn.specs.Shown.{id_of, passes_of};
ghost use Rattle.usb_turn_cases.specs.History.{IsTotalOf, by_of};
ghost use Rattle.usb_turn_cases.specs.Ran.{IsIdle, Ran};
ghost use Rattle.usb_turn_cases.specs.declared.entry.Entry.{Entry};

use crate::shared::SharedTally;
use crate::tally::Tally;
use std::alloc::{AllocError, Global};
use std::sync::Wait;
use std::thread::{Threads, join};
use usb_turn::{TurnPass, Turns};
use usb_types::Memory;

/// Adds 3 so many times.
pub(crate) fn add_threes<R: Wait>(
    rt: &R,
    host: &SharedTally,
    mut pass: TurnPass<Tally>,
    times: u32,
) -> TurnPass<Tally>
    requires { IsIdle host.now pass }
    ensures { Ran times pass result }
{
    for _n in 0..times {
        host.add(rt, &mut pass, 3);
    }
    pass
}

fn run_both<R: Threads + Wait + Sync>(
    rt: &R,
    host: &SharedTally,
    a: TurnPass<Tally>,
    b: TurnPass<Tally>,
    times: u32,
) -> (TurnPass<Tally>, TurnPass<Tally>)
    requires a { IsIdle host.now a }
    requires b { IsIdle host.now b }
    ensures a { Ran times a result.0 }
    ensures b { Ran times b result.1 }
{
    join(
        rt,
        || -> TurnPass<Tally>
            requires { IsIdle host.now a }
            ensures { Ran times a result }
        { add_threes(rt, host, a, times) },
        || -> TurnPass<Tally>
            requires { IsIdle host.now b }
            ensures { Ran times b result }
        { add_threes(rt, host, b, times) },
    )
}

fn pair<T: Drop>(alloc: Global, a: T, b: T) -> Result<Vec<T>, AllocError>
    ensures { IfOk result (λ v. v.items ≡ a ∷ b ∷ []) }
{
    let mut both = Vec::new(alloc);
    both.push(a)?;
    both.push(b)?;
    Ok(both)
}

fn open_two(alloc: Global) -> Result<(SharedTally, TurnPass<Tally>, TurnPass<Tally>), Memory>
    ensures { IfOk result (λ r. (passes_of r.0.turns ≡ 2) × (r.1 ≡ fresh (id_of r.0.turns) 0) × (r.2 ≡ fresh (id_of r.0.turns) 1)) }
{
    let (turns, mut passes) = Turns::new(alloc, Tally::new(), 2)?;
    let Some(b) = passes.pop() else {
        unreachable!()
    };
    let Some(a) = passes.pop() else {
        unreachable!()
    };
    Ok((SharedTally { turns }, a, b))
}

/// The passes meet, and the tally is taken out.
fn close_two(
    host: SharedTally,
    alloc: Global,
    mut a: TurnPass<Tally>,
    mut b: TurnPass<Tally>,
) -> Result<u64, Memory>
    requires passes { passes_of host.turns ≡ 2 }
    requires a { IsIdle host a × (a.number ≡ 0) }
    requires b { IsIdle host b × (b.number ≡ 1) }
    ensures { IfOk result (λ n. (rows : List Entry) × IsTotalOf n rows × (part by_of 0 rows ≡ a.mine) × (part by_of 1 rows ≡ b.mine)) }
{
    host.meet(&mut a, &mut b);
    let Ok(passes) = pair(alloc, a, b) else {
        return Err(Memory);
    };
    let SharedTally { turns } = host;
    Ok(turns.close(passes).total)
}

/// The total that two threads come to, which add 3 so many times each. It is that of a legal history in which each of the
/// two passes has as many calls as it made.
pub fn add_in_two_threads<R: Threads + Wait + Sync>(
    rt: &R,
    alloc: Global,
    times: u32,
) -> Result<u64, Memory>
    ensures { IfOk result (λ n. (rows : List Entry) × IsTotalOf n rows × (length (part by_of 0 rows) ≡ times) × (length (part by_of 1 rows) ≡ times)) }
{
    let (host, a, b) = open_two(alloc)?;
    let (a, b) = run_both(rt, &host, a, b, times);
    close_two(host, alloc, a, b)
}
