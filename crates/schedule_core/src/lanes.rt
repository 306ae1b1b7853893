// What the one worker of a solo run has: a running task, the records that are open, and counts.

use tp_value::Outcome;
use tpal_machine::{Rest, Side, Task};

/// An open record of a solo run. Its number is that of the records that were open when it was
/// opened.
#[derive(Drop)]
pub enum Opened {
    /// The left side runs, or a task that stands above it; the child waits.
    Waiting { rest: Rest, child: Task },
    /// The left side has arrived; the child runs, or a task that stands above it.
    Half { rest: Rest, left: Side },
}

/// The counts of a run so far. Each stays at its type's end.
#[derive(Clone, Copy, PartialEq, Eq, Debug)]
pub struct Tally {
    /// The records that were opened.
    pub tasks: u64,
    /// The diversions.
    pub beats: u64,
    /// The questions for a record that were answered with none.
    pub skipped: u64,
    /// The instructions that were executed.
    pub instructions: u64,
}

/// What a solo run comes to next.
#[derive(Drop)]
pub enum SoloState {
    /// A task runs.
    Runs(Task),
    /// The run has ended.
    Over(Outcome),
}
