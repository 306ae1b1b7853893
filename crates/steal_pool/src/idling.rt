// How an idle worker waits: it looks again and again, and then sleeps until there may be something.

use crossbeam_utils::Backoff;
use crossbeam_utils::sync::{EventCount, Key};
use std::sync::Wait;

/// The idle turns after which a worker sleeps. They take some 2 milliseconds, so that a worker is
/// awake where work comes soon again.
const MOST_LOOKS: u32 = 4000;

/// The waiting of a worker between two turns that do something.
#[derive(Drop)]
pub(crate) struct Idling<'a> {
    backoff: Backoff,
    looks: u32,
    /// The sleep that was announced before the last turn.
    key: Option<Key<'a>>,
}

impl<'a> Idling<'a> {
    pub(crate) fn new() -> Idling<'a> {
        Idling {
            backoff: Backoff::new(),
            looks: 0,
            key: None,
        }
    }

    /// A turn did something.
    pub(crate) fn end(&mut self) {
        self.backoff.reset();
        self.looks = 0;
        self.key = None;
    }

    /// A turn lost what it wanted to another worker.
    pub(crate) fn retry(&mut self) {
        self.backoff.spin();
        self.key = None;
    }

    /// A turn found nothing to do. A sleep is announced first, and begins where the turn after that
    /// finds nothing either: so no notification is missed.
    pub(crate) fn go_on<R: Wait>(&mut self, rt: &R, sleepers: &'a EventCount) {
        if let Some(key) = self.key.take() {
            key.wait(rt);
            return;
        }
        if self.looks < MOST_LOOKS {
            self.looks += 1;
            self.backoff.snooze();
        } else {
            self.key = Some(sleepers.prepare_wait());
        }
    }
}
