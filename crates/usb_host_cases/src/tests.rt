//! Threads that poison, kill and close one host that they take by turns.
use crate::{kills_by_turns, one_urb, poison_by_turns, run_by_turns};
use std::test::Fail;
use usb_types::UrbId;

#[test]
fn a_poison_and_a_kill_in_two_threads(rt: HostRuntime) -> Result<(), Fail> {
    let layout = one_urb(rt.alloc())?;
    let _closed = run_by_turns(&rt, rt.alloc(), layout, UrbId(0))?;
    Ok(())
}

#[test]
fn sixty_four_threads_poison_one_urb(rt: HostRuntime) -> Result<(), Fail> {
    let layout = one_urb(rt.alloc())?;
    let _closed = poison_by_turns(&rt, rt.alloc(), layout, 64, UrbId(0))?;
    Ok(())
}

#[test]
fn nothing_rests_where_two_threads_kill_a_new_urb(rt: HostRuntime) -> Result<(), Fail> {
    let layout = one_urb(rt.alloc())?;
    let (first, second) = kills_by_turns(&rt, rt.alloc(), layout, UrbId(0))?;
    assert!(rt; first.is_none() && second.is_none());
    Ok(())
}
