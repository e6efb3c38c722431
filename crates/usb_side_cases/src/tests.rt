//! Threads that share one host with its server's thread.
use crate::{crowd_by_turns, one_out, race_by_turns};
use std::test::Fail;
use usb_types::UrbId;

/// How often the URB is submitted, and how often it is killed.
const ROUNDS: u32 = 1000;

#[test]
fn a_killer_and_a_submitter_race_on_one_urb(rt: HostRuntime) -> Result<(), Fail> {
    let layout = one_out(rt.alloc())?;
    let _closed = race_by_turns(&rt, rt.alloc(), layout, UrbId(0), ROUNDS)?;
    Ok(())
}

#[test]
fn three_threads_share_one_host(rt: HostRuntime) -> Result<(), Fail> {
    let layout = one_out(rt.alloc())?;
    let _closed = crowd_by_turns(&rt, rt.alloc(), layout, 1, UrbId(0))?;
    Ok(())
}

#[test]
fn sixty_six_threads_share_one_host(rt: HostRuntime) -> Result<(), Fail> {
    let layout = one_out(rt.alloc())?;
    let _closed = crowd_by_turns(&rt, rt.alloc(), layout, 64, UrbId(0))?;
    Ok(())
}
