//! Two works of a test side by side.
ghost use Rattle.std.specs.Prelude.{◌≡◌};

use crate::{run_both, run_both_or_neither};
use std::process::Abort;
use std::sync::{Barrier, Wait};
use std::thread::Threads;

#[test]
fn does_both_works_with_their_numbers(rt: HostRuntime) {
    let (mut left, mut right) = (5_usize, 7_usize);
    run_both(
        &rt,
        &|i: usize, it: &mut usize|
            ensures { it.new ≡ i }
        { *it = i },
        &mut left,
        &|i: usize, it: &mut usize|
            ensures { it.new ≡ i }
        { *it = i },
        &mut right,
    );
    assert_eq!(rt; (left, right), (0, 1));
}

/// Two works that wait for each other: each leaves whether it was done.
fn wait_for_each_other<R: Threads + Wait + Sync>(rt: &R) -> (bool, bool, bool) {
    let (mut left, mut right) = (false, false);
    let here = Barrier::new(2);
    let wait = |_: usize, done: &mut bool| {
        here.wait(rt);
        *done = true;
    };
    let done = run_both_or_neither(rt, &wait, &mut left, &wait, &mut right);
    (done, left, right)
}

#[test]
fn does_works_that_wait_for_each_other_where_both_have_begun(rt: HostRuntime) {
    let done = wait_for_each_other(&rt);
    assert_eq!(rt; (done.0, done.0), (done.1, done.2));
}
