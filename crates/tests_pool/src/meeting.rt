// Two workers that each wait for a moment of the other, which one thread can't do.

use crate::sums::{COUNT, Plan, is_right, ran};
use crate::waiting::is_set_in_time;
use std::sync::atomic::{AtomicBool, Ordering};
use std::test::Fail;
use steal_pool::{Gate, GateEvent};
use sum_code::sum_below;
use tp_value::MAX_FORKS;

/// Worker 0 waits, at its first turn after it has opened a record, for worker 1 to claim a child,
/// and worker 1 then waits for worker 0 to stand there.
#[derive(Drop)]
struct Meeting {
    opened: AtomicBool,
    stands: AtomicBool,
    claimed: AtomicBool,
    missed: AtomicBool,
}

impl Meeting {
    fn new() -> Meeting {
        Meeting {
            opened: AtomicBool::new(false),
            stands: AtomicBool::new(false),
            claimed: AtomicBool::new(false),
            missed: AtomicBool::new(false),
        }
    }

    fn wait_for(&self, flag: &AtomicBool) {
        if !is_set_in_time(flag) {
            self.missed.store(true, Ordering::SeqCst);
        }
    }

    // Sets one flag and waits for the other, the first time.
    fn meet(&self, own: &AtomicBool, other: &AtomicBool) {
        if !own.load(Ordering::SeqCst) {
            own.store(true, Ordering::SeqCst);
            self.wait_for(other);
        }
    }

    fn has_met(&self) -> bool {
        self.stands.load(Ordering::SeqCst)
            && self.claimed.load(Ordering::SeqCst)
            && !self.missed.load(Ordering::SeqCst)
    }
}

impl Gate for Meeting {
    fn at(&self, worker: u32, event: GateEvent) {
        match (worker, event) {
            (0, GateEvent::Opened) => self.opened.store(true, Ordering::SeqCst),
            (0, GateEvent::Turn) => {
                if self.opened.load(Ordering::SeqCst) {
                    self.meet(&self.stands, &self.claimed);
                }
            }
            (1, GateEvent::Claimed) => self.meet(&self.claimed, &self.stands),
            _ => {}
        }
    }
}

#[test]
fn two_workers_run_beside_each_other(rt: HostRuntime) -> Result<(), Fail> {
    let alloc = rt.alloc();
    let code = sum_below(alloc, COUNT)?.expect(&rt, "a code");
    let plan = Plan {
        heartbeat: 1,
        workers: 2,
        forks: MAX_FORKS,
    };
    let gate = Meeting::new();
    let (report, closed) = ran(&rt, alloc, &code, plan, &gate)?;
    assert!(rt; is_right(&report, &closed, plan));
    assert!(rt; report.tasks >= 1);
    assert!(rt; gate.has_met());
    Ok(())
}
