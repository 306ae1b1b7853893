// How a worker of these tests waits for another one.

use crossbeam_utils::Backoff;
use std::sync::atomic::{AtomicBool, Ordering};

/// How long it waits, in turns of a loop that backs off.
pub(crate) const PATIENCE: u32 = 10_000_000;

/// Waits until a flag is set, and answers whether it was in time.
pub(crate) fn is_set_in_time(flag: &AtomicBool) -> bool {
    let backoff = Backoff::new();
    for _turn in 0..PATIENCE {
        if flag.load(Ordering::SeqCst) {
            return true;
        }
        backoff.snooze();
    }
    false
}
