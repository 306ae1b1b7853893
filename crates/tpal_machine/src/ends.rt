// The ends of tasks, and what a task ends with.

use slices::Held;
use tp_value::{Items, Outcome, Stop};
use tpal_syntax::Word;

/// A side of a join record.
#[derive(Clone, Copy, PartialEq, Eq, Debug)]
pub enum SideName {
    /// The task that forked.
    Left,
    /// The task that was forked.
    Right,
}

/// Where a task ends.
#[derive(Clone, Copy, PartialEq, Eq, Debug)]
pub enum End {
    /// The whole run.
    Root,
    /// A side of the record with this number.
    At { rec: u32, side: SideName },
}

/// Where a task ends, with the join target of a side: the block whose renaming says which words
/// the side hands over.
#[derive(Clone, Copy, PartialEq, Eq, Debug)]
pub enum Goal {
    /// The whole run.
    Root,
    /// A side of the record with this number.
    At {
        rec: u32,
        side: SideName,
        target: u32,
    },
}

/// A join record and its join target.
#[derive(Clone, Copy, PartialEq, Eq, Debug)]
pub struct Tie {
    /// The record's number.
    pub rec: u32,
    /// The label of the join target.
    pub target: u32,
}

/// What a task that asked for a join record waits for.
#[derive(Clone, Copy, PartialEq, Eq, Debug)]
pub struct Wait {
    /// The register that gets the answer.
    pub to: u8,
    /// The label of the join target.
    pub target: u32,
}

/// What one side of a join record ended with.
#[derive(Drop)]
pub struct Side {
    /// How it stopped.
    pub stop: Stop,
    /// The ticks that it counted.
    pub ticks: u64,
    /// The bytes that it printed.
    pub output: Items<u8>,
    /// Where it is done, the registers that the join target's renaming takes from a side, each
    /// with its word.
    pub words: Items<(u8, Word)>,
    /// Where it is done, the carried tables by their numbers, each with the cells that the side
    /// held.
    pub slices: Items<(u8, Held)>,
}

/// What a task ends with.
#[derive(Drop)]
pub enum Ending {
    /// A side of a join record.
    At { rec: u32, side: SideName, out: Side },
    /// The whole run.
    Root(Outcome),
}
