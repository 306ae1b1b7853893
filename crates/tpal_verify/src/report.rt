// What a run of accepted code by one worker came to.

use tp_value::Outcome;
use tpal_machine::Fault;

/// The instructions that such a run may be given, at most.
pub const MAX_STEPS: u64 = 1_000_000_000_000;

/// How such a run ends.
#[derive(Drop)]
pub enum ExecEnd {
    /// The run is over, with its outcome.
    Ended(Outcome),
    /// So many instructions were executed as were asked for, and the run isn't over.
    Spent,
    /// The next instruction can't be executed.
    Stuck {
        /// The fault.
        fault: Fault,
        /// The block in which the instruction stands.
        block: u32,
        /// Its position there. One beyond 2^32 - 1 is told as that number.
        at: u32,
    },
}

/// What such a run came to.
#[derive(Drop)]
pub struct ExecReport {
    /// How it ended.
    pub end: ExecEnd,
    /// The records that were opened, each for a new task.
    pub tasks: u64,
    /// The instructions that were executed. One that is stuck isn't.
    pub instructions: u64,
}
