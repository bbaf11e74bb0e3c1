//! What is left after steps were taken.

use crate::{Work, steps_of_text};
use std::cell::Cell;
use std::test::Fail;

/// Steps are taken as long as there are enough; then all are gone.
#[test]
fn steps_are_taken_until_none_is_left(rt: HostRuntime) -> Result<(), Fail> {
    let left = Cell::new(5u64);
    let work = Work::counted(&left);
    assert!(rt; work.take(3).is_ok());
    assert!(rt; left.get() == 2);
    work.count(1);
    assert!(rt; left.get() == 1);
    assert!(rt; !work.is_spent());
    assert!(rt; work.take(2).is_err());
    assert!(rt; work.is_spent());
    assert!(rt; work.take(1).is_err());
    Ok(())
}

/// What isn't counted is never spent.
#[test]
fn free_work_is_never_spent(rt: HostRuntime) -> Result<(), Fail> {
    let work = Work::free();
    assert!(rt; work.take(1_000_000).is_ok());
    assert!(rt; !work.is_spent());
    Ok(())
}

/// Texts of fewer bytes than a step has are no step of their own.
#[test]
fn long_texts_are_steps(rt: HostRuntime) -> Result<(), Fail> {
    assert!(rt; steps_of_text(63) == 0);
    assert!(rt; steps_of_text(128) == 2);
    Ok(())
}
