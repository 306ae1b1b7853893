// What a run is asked to do, and what it answers.

use slices::Held;
use tp_value::{Items, Outcome};

/// A run of a code: what its first task begins with, and how it is shared out.
#[derive(Drop)]
pub struct Job {
    /// What is held of each table of the code: all of an input, and nothing of one that is made.
    pub tables: Items<Held>,
    /// The fuel, in ticks.
    pub fuel: u64,
    /// The instructions between two diversions of a task, at least 1.
    pub heartbeat: u64,
    /// The workers, 1 to 16.
    pub workers: u32,
    /// How many times each worker may be diverted.
    pub forks: u32,
}

/// What a run came to.
#[derive(Drop)]
pub struct Report {
    /// How the run ended, and what it printed.
    pub outcome: Outcome,
    /// The records that were opened, each for a new task.
    pub tasks: u64,
    /// The diversions of all workers.
    pub beats: u64,
    /// The questions for a record that were answered with none.
    pub skipped: u64,
    /// The instructions that were executed.
    pub instructions: u64,
}
