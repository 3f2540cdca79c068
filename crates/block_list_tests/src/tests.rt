//! Lists that grow, are cut and are read by two threads.
ghost use Rattle.probe_core.specs.Blanks.{IsBlankOf};

use block_list::BlockList;
use probe_core::Steps;
use std::alloc::Global;
use std::marker::Brand;
use std::sync::atomic::{AtomicU64, Ordering};
use std::sync::ledger::{Blank, Ledger};
use std::test::*;
use std::thread;
use std::thread::Threads;

/// Lengths at the borders of blocks, which have 64 items each.
const LENGTHS: [usize; 8] = [0, 1, 63, 64, 65, 128, 129, 200];

/// An item that counts its drop.
struct Counted<'a> {
    drops: &'a AtomicU64,
}

impl Drop for Counted<'_> {
    fn drop(self) {
        let Self { drops } = self;
        drops.fetch_add(1, Ordering::SeqCst);
    }
}

/// How many items are dropped by a cut of so many to `left`, and how many once the list is dropped too.
fn counts_of(alloc: Global, len: usize, left: usize) -> Option<(u64, u64)> {
    let drops = AtomicU64::new(0);
    let mut list = BlockList::new(alloc);
    for place in 0..len {
        match list.push(Counted { drops: &drops }) {
            Ok(at) if at == place => {}
            _ => return None,
        }
    }
    if list.len() != len || list.len() < left {
        return None;
    }
    list.cut(left);
    let cut = drops.load(Ordering::SeqCst);
    drop(list);
    Some((cut, drops.load(Ordering::SeqCst)))
}

#[test]
fn drops_each_item_once_wherever_it_is_cut(rt: HostRuntime) {
    for len in LENGTHS {
        for left in LENGTHS {
            if left <= len {
                let cut = (len - left) as u64;
                assert_eq!(rt;
                    counts_of(rt.alloc(), len, left),
                    Some((cut, len as u64)),
                    "{len} cut to {left}"
                );
            }
        }
    }
}

/// How many of 130 items are dropped by a cut to 64, where a push puts one more, and how many are dropped with the
/// list.
fn counts_with_a_push_behind_a_cut(alloc: Global) -> Option<(u64, usize, u64)> {
    let drops = AtomicU64::new(0);
    let mut list = BlockList::new(alloc);
    for _ in 0..130 {
        if list.push(Counted { drops: &drops }).is_err() {
            return None;
        }
    }
    if list.len() != 130 {
        return None;
    }
    list.cut(64);
    let cut = drops.load(Ordering::SeqCst);
    let Ok(place) = list.push(Counted { drops: &drops }) else {
        return None;
    };
    drop(list);
    Some((cut, place, drops.load(Ordering::SeqCst)))
}

#[test]
fn drops_what_is_pushed_behind_a_cut(rt: HostRuntime) {
    assert_eq!(rt;
        counts_with_a_push_behind_a_cut(rt.alloc()),
        Some((66, 64, 131))
    );
}

/// Pushes a number, and again where that is refused, with the list as before.
fn push_again(list: &mut BlockList<u64>, number: u64) -> bool {
    let len = list.len();
    match list.push(number) {
        Ok(place) => place == len,
        Err(back) => back == number && list.len() == len && list.push(back).is_ok(),
    }
}

fn sum<L: Ledger>(blank: Blank, list: &BlockList<u64>) -> u64
    requires { IsBlankOf L.name L.parts blank }
{
    let mut steps = Steps::<L>::new(blank);
    let mut sum = 0u64;
    for i in 0..list.len() {
        sum = sum.wrapping_add(*list.get(i, &mut steps));
    }
    sum
}

fn sum_once(list: &BlockList<u64>) -> u64 {
    sum::<Brand>(Blank::new(1), list)
}

#[test]
fn is_as_before_where_memory_is_refused(rt: HostRuntime) {
    let mut list = BlockList::new(rt.alloc());
    for number in 0..200 {
        assert!(rt; push_again(&mut list, number), "{number} was lost");
    }
    assert_eq!(rt; sum_once(&list), 19900);
}

#[test]
fn counts_items_without_bytes(rt: HostRuntime) {
    let mut list = BlockList::new(rt.alloc());
    for place in 0..129usize {
        assert_eq!(rt; list.push(()), Ok(place));
    }
    assert_eq!(rt; list.len(), 129);
    *list.get_mut(128) = ();
    list.cut(64);
    assert_eq!(rt; list.push(()), Ok(64));
}

/// A list is shared with another thread wherever its items may be.
fn lens_by_two<T: Sync, R: Threads + Sync>(rt: &R, list: &BlockList<T>) -> (usize, usize) {
    thread::join(rt, || list.len(), || list.len())
}

/// A list moves to another thread wherever its items may.
fn len_elsewhere<T: Send + Drop, R: Threads + Sync>(rt: &R, list: BlockList<T>) -> (usize, usize) {
    thread::join(rt, move || list.len(), || 0)
}

fn sum_twice<R: Threads + Sync>(rt: &R, list: &BlockList<u64>) -> (u64, u64) {
    thread::join(rt, || sum_once(list), || sum_once(list))
}

#[test]
fn threads_read_side_by_side(rt: HostRuntime) {
    let mut list = BlockList::new(rt.alloc());
    for i in 0..200u64 {
        assert!(rt; list.push(i).is_ok());
    }
    assert_eq!(rt; list.len(), 200);
    *list.get_mut(100) = 1100;
    assert_eq!(rt; sum_twice(&rt, &list), (20900, 20900));
    assert!(rt; !list.is_empty());
    assert_eq!(rt; lens_by_two(&rt, &list), (200, 200));
    assert_eq!(rt; len_elsewhere(&rt, list), (200, 0));
}
