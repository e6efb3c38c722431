//! Threads that add to one tally.
use crate::{add_in_threads, add_in_two_threads};
use std::test::Fail;

#[test]
fn two_threads_add_a_thousand_each(rt: HostRuntime) -> Result<(), Fail> {
    let total = add_in_two_threads(&rt, rt.alloc(), 1000)?;
    assert!(rt; total == 6000);
    Ok(())
}

#[test]
fn one_pass_has_all_rows(rt: HostRuntime) -> Result<(), Fail> {
    let total = add_in_threads(&rt, rt.alloc(), 1, 100)?;
    assert!(rt; total == 300);
    Ok(())
}

#[test]
fn sixty_six_threads_add_twenty_each(rt: HostRuntime) -> Result<(), Fail> {
    let total = add_in_threads(&rt, rt.alloc(), 66, 20)?;
    assert!(rt; total == 3960);
    Ok(())
}
