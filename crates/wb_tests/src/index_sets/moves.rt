//! Arrays moved by crews; and how often each worker passes its gate.

use crate::index_sets::movers::{in_turn, moves_the_tens, tens};
use std::alloc::Global;
use std::process::Abort;
use std::sync::atomic::{AtomicUsize, Ordering};
use std::test::Fail;
use std::thread::Threads;
use wb_arrays::{Crew, Gate, Mover, Workers};

// A crew of one thread, and of 1, 3 and 64 workers.
#[test]
fn pieces_by_any_crew(rt: HostRuntime) -> Result<(), Fail> {
    moves_the_tens(&rt, rt.alloc(), &Crew::alone(&rt))?;
    for count in [1, 3, 64] {
        moves_the_tens(&rt, rt.alloc(), &Crew::new(&rt, count)?)?;
    }
    Ok(())
}

// Counts how often each worker arrives, and those that have a number of no worker.
#[derive(Drop)]
struct Counting<'a> {
    arrivals: &'a [AtomicUsize],
    others: &'a AtomicUsize,
}

impl Gate for Counting<'_> {
    fn arrive(&self, worker: usize) {
        let arrivals = self.arrivals.get(worker).unwrap_or(self.others);
        arrivals.fetch_add(1, Ordering::SeqCst);
    }
}

// That each of so many workers arrives once a move, and nobody else.
fn each_arrives_once<R: Abort + Threads + Sync>(
    rt: &R,
    alloc: Global,
    count: usize,
) -> Result<(), Fail> {
    let mut arrivals = Vec::new(alloc);
    for _ in 0..count {
        arrivals.push(AtomicUsize::new(0))?;
    }
    let others = AtomicUsize::new(0);
    let gate = Counting {
        arrivals: arrivals.as_slice(),
        others: &others,
    };
    let workers = Workers::new(rt, count, gate)?;
    let from = tens(rt, alloc)?;
    for moves in 1..=3usize {
        workers.move_pieces(alloc, &from, &in_turn()?)?;
        for arrived in &arrivals {
            assert_eq!(rt; arrived.load(Ordering::SeqCst), moves);
        }
        assert_eq!(rt; others.load(Ordering::SeqCst), 0);
    }
    Ok(())
}

#[test]
fn each_worker_passes_its_gate_once(rt: HostRuntime) -> Result<(), Fail> {
    for count in [1, 2, 3, 4, 5, 64] {
        each_arrives_once(&rt, rt.alloc(), count)?;
    }
    Ok(())
}
