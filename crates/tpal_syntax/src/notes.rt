// What a block is marked as.

use tp_value::Items;

/// What a fork cuts in two.
#[derive(Clone, Copy, PartialEq, Eq, Debug)]
pub enum CutKind {
    /// A parallel loop: both parts keep the activation.
    Loop,
    /// A pair of calls: the left keeps what lies above the activation.
    Call,
}

/// A part of a table that goes with the child of a fork.
#[derive(Clone, Copy, PartialEq, Eq, Debug)]
pub enum CarryAt {
    /// `tK rows rA`: the rows from the number in a register on.
    Rows { table: u8, at: u8 },
    /// `tK cells rA rB`: of the row in `row`, the cells from the number in `at` on.
    Cells { table: u8, row: u8, at: u8 },
}

/// A join target: how the two sides of a fork are put together again.
#[derive(Drop)]
pub struct Target {
    /// Whether the join is said to commute as well. Both policies merge left, then right.
    pub comm: bool,
    /// From which register of the other side which register of this one is filled.
    pub renames: Items<(u8, u8)>,
    /// The block that combines both.
    pub comb: u32,
    /// What the fork cuts.
    pub kind: CutKind,
    /// The parts of tables that the child gets.
    pub carries: Items<CarryAt>,
}

/// What a block is marked as.
#[derive(Drop)]
pub enum Note {
    /// A block like any other.
    Plain,
    /// A promotion-ready point, with the block that is entered instead on a heartbeat.
    Ready(u32),
    /// A join target.
    Target(Target),
}
