// A gate that holds one worker until another has come by.
use crate::{Gate, Point, SharedGate};
use std::alloc::{AllocError, Global};
use std::sync::Arc;
use std::sync::atomic::{AtomicU64, Ordering};
use std::thread;

// For how many turns the first is held where nothing else is said.
const MOST_TURNS: u32 = 10_000_000;

/// The point of a held gate, and who has passed it there. All gates that one held gate hands out have the same.
#[derive(Drop)]
pub struct Hold {
    point: Point,
    // For how many turns the first is held.
    turns: u32,
    // 0 before anybody passed at the point, else the number of the first that did, and 1.
    first: AtomicU64,
    // Not 0 where another has passed there.
    passed: AtomicU64,
    // Not 0 where the first was let go without another.
    gave_up: AtomicU64,
}

impl Hold {
    /// Lets this worker through at this point, the first of them once another has passed it or after all turns.
    pub fn pass(&self, worker: u32, point: Point) {
        if self.point != point {
            return;
        }
        let me = u64::from(worker) + 1;
        match self
            .first
            .compare_exchange(0, me, Ordering::SeqCst, Ordering::SeqCst)
        {
            Ok(_) => self.wait_for_another(),
            Err(first) => {
                if first != me {
                    self.passed.store(1, Ordering::SeqCst);
                }
            }
        }
    }

    fn wait_for_another(&self) {
        for _ in 0..self.turns {
            if self.passed.load(Ordering::SeqCst) != 0 {
                return;
            }
            thread::yield_now();
        }
        self.gave_up.store(1, Ordering::SeqCst);
    }
}

/// A gate that holds the first worker that passes it at its point, until a worker with another number has passed there, for
/// so many turns at most. It holds once.
#[derive(Drop)]
pub struct HeldGate {
    hold: Arc<Hold, Global>,
}

impl HeldGate {
    /// A gate that holds at this point, for at most 10,000,000 turns.
    pub fn new(alloc: Global, point: Point) -> Result<HeldGate, AllocError> {
        HeldGate::for_turns(alloc, point, MOST_TURNS)
    }

    /// A gate that holds at this point for at most so many turns. With none it holds nobody, and tells whether two have come by.
    pub fn for_turns(alloc: Global, point: Point, turns: u32) -> Result<HeldGate, AllocError> {
        let hold = Hold {
            point,
            turns,
            first: AtomicU64::new(0),
            passed: AtomicU64::new(0),
            gave_up: AtomicU64::new(0),
        };
        Ok(HeldGate {
            hold: Arc::new(alloc, hold)?,
        })
    }

    /// Was the first let go after all turns, without another?
    pub fn ran_out(&self) -> bool {
        self.hold.gave_up.load(Ordering::SeqCst) != 0
    }

    /// Have two workers with different numbers come by?
    pub fn met(&self) -> bool {
        self.hold.passed.load(Ordering::SeqCst) != 0
    }
}

impl Gate for HeldGate {
    fn pass(&self, worker: u32, point: Point) {
        self.hold.pass(worker, point);
    }

    fn shared(&self) -> SharedGate {
        SharedGate::holding(&self.hold)
    }
}
