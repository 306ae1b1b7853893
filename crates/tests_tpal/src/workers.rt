// Several workers that run a program beside each other.

use crate::harness::call_beside;
use crossbeam_utils::Backoff;
use std::sync::atomic::{AtomicBool, AtomicU32, Ordering};
use std::test::Fail;
use steal_pool::{Gate, GateEvent};
use tpal_tool::Status;

/// The sum of a column.
const SUM: &str = "input a;
main {
  let s = 0;
  par i in 0..rows(a) reduce s by add { fold s with a[i][0]; }
  print s;
}";

/// How long one waits for the other, in turns of a loop that backs off.
const PATIENCE: u32 = 10_000_000;

/// Worker 0 waits, at its first turn after it has opened a record, for worker 1 to claim a child,
/// and worker 1 then waits for worker 0 to stand there.
#[derive(Drop)]
struct Meeting {
    opened: AtomicBool,
    stands: AtomicBool,
    claimed: AtomicBool,
    missed: AtomicBool,
}

impl Meeting {
    // Sets one flag and waits for the other, the first time.
    fn meet(&self, own: &AtomicBool, other: &AtomicBool) {
        if own.load(Ordering::SeqCst) {
            return;
        }
        own.store(true, Ordering::SeqCst);
        let backoff = Backoff::new();
        for _turn in 0..PATIENCE {
            if other.load(Ordering::SeqCst) {
                return;
            }
            backoff.snooze();
        }
        self.missed.store(true, Ordering::SeqCst);
    }
}

impl Gate for Meeting {
    fn at(&self, worker: u32, event: GateEvent) {
        match (worker, event) {
            (0, GateEvent::Opened) => self.opened.store(true, Ordering::SeqCst),
            (0, GateEvent::Turn) => {
                if self.opened.load(Ordering::SeqCst) {
                    self.meet(&self.stands, &self.claimed);
                }
            }
            (1, GateEvent::Claimed) => self.meet(&self.claimed, &self.stands),
            _ => {}
        }
    }
}

#[test]
fn two_workers_run_a_program_beside_each_other(rt: HostRuntime) -> Result<(), Fail> {
    let gate = Meeting {
        opened: AtomicBool::new(false),
        stands: AtomicBool::new(false),
        claimed: AtomicBool::new(false),
        missed: AtomicBool::new(false),
    };
    let texts: [(&str, &[u8]); 2] = [("p", SUM.as_bytes()), ("t", b"table a 4 1 1 2 3 4")];
    let words = ["run", "p", "t", "--beat", "1", "--workers", "2", "--show"];
    let called = call_beside(&rt, &words, &texts, &gate)?;
    let text = str::from_utf8(&called.text).or(Err("a text"))?;
    let (_code, rest) = text
        .split_once("\n10\ntasks ")
        .ok_or("the output before the counts")?;
    assert_eq!(rt; called.status, Status::Done);
    assert!(rt; !rest.starts_with("0 "));
    assert!(rt; rest.ends_with(" ticks 4\n"));
    assert!(rt; gate.stands.load(Ordering::SeqCst) && gate.claimed.load(Ordering::SeqCst));
    assert!(rt; !gate.missed.load(Ordering::SeqCst));
    Ok(())
}

/// Notes how many workers there are, by the greatest number of one that takes a turn.
#[derive(Drop)]
struct RollCall {
    workers: AtomicU32,
}

impl Gate for RollCall {
    fn at(&self, worker: u32, event: GateEvent) {
        if matches!(event, GateEvent::Turn) {
            self.workers
                .fetch_max(worker.saturating_add(1), Ordering::SeqCst);
        }
    }
}

#[test]
fn as_many_workers_run_as_the_words_ask_for(rt: HostRuntime) -> Result<(), Fail> {
    let texts: [(&str, &[u8]); 2] = [("p", SUM.as_bytes()), ("t", b"table a 4 1 1 2 3 4")];
    let numbers = [
        "1", "2", "3", "4", "5", "6", "7", "8", "9", "10", "11", "12", "13", "14", "15", "16",
    ];
    let mut workers = 0u32;
    for number in numbers {
        workers = workers.saturating_add(1);
        let gate = RollCall {
            workers: AtomicU32::new(0),
        };
        let words = ["run", "p", "t", "--beat", "1", "--workers", number];
        let called = call_beside(&rt, &words, &texts, &gate)?;
        assert_eq!(rt; called.status, Status::Done, "{number}");
        // one worker runs in no pool, and so at no gate
        let wanted = if workers == 1 { 0 } else { workers };
        assert_eq!(rt; gate.workers.load(Ordering::SeqCst), wanted, "{number}");
    }
    Ok(())
}
