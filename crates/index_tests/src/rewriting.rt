//! A table that is written for long needs few chunks, since what lies in sparse ones is moved.

use crate::items::numbered;
use crate::worker::{Act, Worker, alone};
use qp_multi::Named;
use std::alloc::Global;
use std::sync::Wait;

/// The octets of one of 200 names.
fn name_of(number: u64) -> [u8; 2] {
    let low = (number % 20) as u8;
    let high = (number / 20 % 10) as u8;
    [b'b' + high, b'a' + low]
}

/// Puts a name in, or takes it out, by a heavy transaction. Whether a version was made of which nothing lies in sparse chunks.
fn turn_over<N: Named, R: Wait>(
    rt: &R,
    alloc: Global,
    worker: &mut Worker<N>,
    turn: u64,
    act: Act,
) -> bool {
    match numbered(alloc, name_of(turn), turn, 100) {
        Some(item) => worker
            .update(rt, &item, act)
            .is_ok_and(|receipt| receipt.whole),
        None => false,
    }
}

/// So many heavy transactions, each of which puts a name in or takes one out: at most 200 are there beside the first.
pub(crate) fn rewritten<N: Named, R: Wait>(
    rt: &R,
    alloc: Global,
    workers: Vec<Worker<N>>,
) -> Option<bool> {
    let mut worker = alone(workers)?;
    for turn in 0..5000u64 {
        let act = if turn / 200 % 2 == 1 {
            Act::Out
        } else {
            Act::In
        };
        if !turn_over(rt, alloc, &mut worker, turn, act) {
            return Some(false);
        }
    }
    Some(worker.count() == (5000, 201))
}

/// Compactions make versions of the same names.
pub(crate) fn compacted<N: Named, R: Wait>(rt: &R, workers: Vec<Worker<N>>) -> Option<bool> {
    let mut worker = alone(workers)?;
    for turn in 1..10u64 {
        let receipt = worker.compact(rt);
        let done = receipt.is_some_and(|receipt| receipt.version == turn && receipt.whole);
        if !done || worker.count() != (turn, 1) {
            return Some(false);
        }
    }
    Some(true)
}
