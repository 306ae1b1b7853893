//! The machine that runs one task: registers, a stack with marks, held tables, a heartbeat, forks
//! and merges. It stands on the code types of `tpal_syntax` and on `stack_marks`, `slices`,
//! `beat_count`, `reduce_ops` and `table_text`. Contracts speak of `State`, of `step` and of
//! `turn_of`: what a task is, what one instruction does, and what a turn of at most so many
//! instructions comes to. Start with `task`, then `execute` for one step, then `turn`, which takes
//! the fast road of `ops` wherever it can.
#![tactic(auto)]

// What a task is, and what it comes to.
mod ends;
mod faults;
mod flow;
mod rest;
mod task;

// The machine one step at a time: an instruction, a fork, a merge, a turn.
mod blocks;
mod cut;
mod ending;
mod entry;
mod execute;
mod fork;
mod joining;
mod making;
mod output;
mod parts;
mod records;
mod registers;
mod stack;
mod stops;
mod tables;
mod turn;
mod words;

// The fast road: ops, several instructions at a time, where nothing can divert the task.
mod ops;

/// Laws of what a task will end with.
pub mod laws;

pub use ends::{End, Ending, Side, SideName};
pub use entry::Pace;
pub use faults::Fault;
pub use joining::{Merged, merge};
pub use records::answer;
pub use rest::Rest;
pub use task::Task;
pub use turn::{Ran, Turn, run_task};
