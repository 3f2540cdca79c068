//! Threads. Two works side by side, by fork and join: one in a thread of its own, where one can be made, and one in the
//! caller's.
//!
//! [`run_both`] gives each work its number and a value that it alone may change, and returns when both are done. What
//! it promises of each is what that work promises, over every order of the two threads' steps. It is for works of which
//! the first may follow the second, as where no thread can be made. [`run_both_or_neither`] is for works that wait for
//! each other: it begins them only once each has a thread that runs, and says whether it did. If not, both values are
//! as they were. A [`MayGo`] is the answer of a function that promises which types may go to another thread. It stands
//! on std alone. What the works are is left to the caller.
//!
//! ```
//! let (mut left, mut right) = (1, 2);
//! run_both(rt, &|_: usize, it: &mut u32| *it += 10, &mut left, &|_: usize, it: &mut u32| *it += 20, &mut right);
//! // left is 11 and right is 22
//! ```
#![tactic(auto)]

ghost use Rattle.std.specs.Prelude.{◌≡◌, MatchBool};
ghost use Rattle.std.specs.Fork.{AcceptsAt, ChangesAt};

mod going;
mod meeting;
#[cfg(test)]
mod tests;

use crate::meeting::Meeting;
pub use going::{MayGo, may_go};
use std::sync::{OnceToken, Wait};
use std::thread::{Threads, join_mut};

/// Does the first work in a thread of its own, and the second in this one. Where no thread can be made, the second goes
/// first.
pub fn run_both<R: Threads, X: Send, Y, F: Fn(usize, &mut X) + Sync, G: Fn(usize, &mut Y)>(
    rt: &R,
    f: &F,
    x: &mut X,
    g: &G,
    y: &mut Y,
)
    requires f { AcceptsAt F.Fn f.now 0 x.old }
    requires g { AcceptsAt G.Fn g.now 1 y.old }
    ensures f { ChangesAt F.Fn f.now 0 x.old x.new }
    ensures g { ChangesAt G.Fn g.now 1 y.old y.new }
{
    join_mut(
        rt,
        &mut ||
            requires { AcceptsAt F.Fn f.now 0 x.now }
            ensures { ChangesAt F.Fn f.entry.now 0 x.entry.now x.exit.now }
        { call_at(f, 0, x) },
        &mut ||
            requires { AcceptsAt G.Fn g.now 1 y.now }
            ensures { ChangesAt G.Fn g.entry.now 1 y.entry.now y.exit.now }
        { call_at(g, 1, y) },
    );
}

/// Does both works in the same way, but neither of them unless a thread has begun for each within some two seconds. It
/// says whether it did them; a value is as it was if not.
pub fn run_both_or_neither<
    R: Threads + Wait + Sync,
    X: Send,
    Y,
    F: Fn(usize, &mut X) + Sync,
    G: Fn(usize, &mut Y),
>(rt: &R, f: &F, x: &mut X, g: &G, y: &mut Y) -> bool
    requires f { AcceptsAt F.Fn f.now 0 x.old }
    requires g { AcceptsAt G.Fn g.now 1 y.old }
    ensures f { MatchBool result (ChangesAt F.Fn f.now 0 x.old x.new) (x.new ≡ x.old) }
    ensures g { MatchBool result (ChangesAt G.Fn g.now 1 y.old y.new) (y.new ≡ y.old) }
{
    let place = Meeting::new();
    let meeting = &place;
    let (first, second) = join_mut(
        rt,
        &mut || -> OnceToken<'_, bool>
            requires { AcceptsAt F.Fn f.now 0 x.now }
            ensures met { result.of ≡ meeting.entry.now.met.id }
            ensures work { MatchBool result.value (ChangesAt F.Fn f.entry.now 0 x.entry.now x.exit.now) (x.exit.now ≡ x.entry.now) }
        { call_if_met(rt, meeting, f, 0, x) },
        &mut || -> OnceToken<'_, bool>
            requires { AcceptsAt G.Fn g.now 1 y.now }
            ensures met { result.of ≡ meeting.entry.now.met.id }
            ensures work { MatchBool result.value (ChangesAt G.Fn g.entry.now 1 y.entry.now y.exit.now) (y.exit.now ≡ y.entry.now) }
        { call_if_met(rt, meeting, g, 1, y) },
    );
    first.agrees(&second);
    *meeting.met.value(&first)
}

/// Calls a work with its number and its value, if the two threads meet.
fn call_if_met<'a, R: Wait, T, F: Fn(usize, &mut T)>(
    rt: &R,
    meeting: &'a Meeting,
    f: &F,
    i: usize,
    it: &mut T,
) -> OnceToken<'a, bool>
    requires { AcceptsAt F.Fn f.now i it.old }
    ensures met { result.of ≡ meeting.now.met.id }
    ensures work { MatchBool result.value (ChangesAt F.Fn f.now i it.old it.new) (it.new ≡ it.old) }
{
    let met = meeting.attend(rt);
    if *meeting.met.value(&met) {
        call_at(f, i, it);
    }
    met
}

/// Calls a work with its number and its value.
fn call_at<T, F: Fn(usize, &mut T)>(f: &F, i: usize, it: &mut T)
    requires { AcceptsAt F.Fn f.now i it.old }
    ensures { ChangesAt F.Fn f.now i it.old it.new }
{
    f(i, it);
}
