// A worker that sleeps, and what wakes it.

use crate::sums::{COUNT, Plan, is_right, ran};
use crate::waiting::{PATIENCE, is_set_in_time};
use crossbeam_utils::Backoff;
use std::sync::atomic::{AtomicBool, AtomicU64, Ordering};
use std::test::Fail;
use steal_pool::{Gate, GateEvent};
use sum_code::sum_below;
use tp_value::MAX_FORKS;

/// The turns of a loop that backs off within which a worker that is awake begins one of its own.
const STILL: u32 = 10_000;

/// Worker 0 begins when worker 1 takes no more turns, and waits, at its first turn after it has
/// opened a record, for worker 1 to claim a child.
#[derive(Drop)]
struct Sleeping {
    turns: AtomicU64,
    opened: AtomicBool,
    claimed: AtomicBool,
    missed: AtomicBool,
}

impl Sleeping {
    fn new() -> Sleeping {
        Sleeping {
            turns: AtomicU64::new(0),
            opened: AtomicBool::new(false),
            claimed: AtomicBool::new(false),
            missed: AtomicBool::new(false),
        }
    }

    // Waits until the other worker has taken turns, and takes none any more.
    fn wait_for_sleep(&self) {
        let backoff = Backoff::new();
        let mut seen = 0;
        let mut still: u32 = 0;
        for _turn in 0..PATIENCE {
            let turns = self.turns.load(Ordering::SeqCst);
            still = if turns == seen && turns > 0 {
                still.saturating_add(1)
            } else {
                0
            };
            if still >= STILL {
                return;
            }
            seen = turns;
            backoff.snooze();
        }
        self.missed.store(true, Ordering::SeqCst);
    }

    fn wait_for_claim(&self) {
        if !is_set_in_time(&self.claimed) {
            self.missed.store(true, Ordering::SeqCst);
        }
    }
}

impl Gate for Sleeping {
    fn at(&self, worker: u32, event: GateEvent) {
        match (worker, event) {
            (0, GateEvent::Opened) => self.opened.store(true, Ordering::SeqCst),
            (0, GateEvent::Turn) => {
                if self.opened.load(Ordering::SeqCst) {
                    self.wait_for_claim();
                } else {
                    self.wait_for_sleep();
                }
            }
            (1, GateEvent::Claimed) => self.claimed.store(true, Ordering::SeqCst),
            (1, GateEvent::Turn) => {
                self.turns.fetch_add(1, Ordering::SeqCst);
            }
            _ => {}
        }
    }
}

#[test]
fn a_worker_that_sleeps_is_woken(rt: HostRuntime) -> Result<(), Fail> {
    let alloc = rt.alloc();
    let code = sum_below(alloc, COUNT)?.expect(&rt, "a code");
    let plan = Plan {
        heartbeat: 1,
        workers: 2,
        forks: MAX_FORKS,
    };
    let gate = Sleeping::new();
    let (report, closed) = ran(&rt, alloc, &code, plan, &gate)?;
    assert!(rt; is_right(&report, &closed, plan));
    assert!(rt; gate.claimed.load(Ordering::SeqCst));
    assert!(rt; !gate.missed.load(Ordering::SeqCst));
    Ok(())
}
