// Places, stops, operators, tables and outcomes.

use crate::list::Items;
use std::alloc::{AllocError, AllocFailed};

/// A place of a text, in lines and bytes of a line, both counted from 1.
#[derive(Clone, Copy, PartialEq, Eq, Debug)]
pub struct Place {
    /// The line, from 1.
    pub line: u32,
    /// The byte of the line, from 1.
    pub col: u32,
}

/// Why a run traps.
#[derive(Clone, Copy, PartialEq, Eq, Debug)]
pub enum TrapKind {
    /// A division or a remainder by 0.
    Divide,
    /// A cell that the table doesn't have.
    Index,
    /// A call deeper than the greatest depth.
    Deep,
    /// A table's size out of its range, or too many cells of all tables together.
    Size,
    /// A `par` over too many iterations.
    Wide,
}

/// How a run ends.
#[derive(Clone, Copy, PartialEq, Eq, Debug)]
pub enum Stop {
    /// It came to its end.
    Done,
    /// An iteration of a parallel loop left the loop with this number.
    Left(i64),
    /// It trapped, at this place of the source.
    Trap(TrapKind, Place),
    /// A tick exceeded the fuel.
    NoFuel,
}

/// An operator of a reduction.
#[derive(Clone, Copy, PartialEq, Eq, Debug)]
pub enum Op {
    /// The wrapped sum.
    Add,
    /// The wrapped product.
    Mul,
    /// The lesser number.
    Min,
    /// The greater number.
    Max,
    /// The composition of two maps from x to m * x + c modulo 2^32.
    Affine,
}

/// A table of numbers with its name.
#[derive(Drop)]
pub struct Table {
    /// The name's bytes.
    pub name: Items<u8>,
    /// The number of rows.
    pub rows: u32,
    /// The number of columns.
    pub cols: u32,
    /// The cells row by row, `rows * cols` of them.
    pub cells: Items<i64>,
}

/// What a run gives.
#[derive(Drop)]
pub struct Outcome {
    /// How it ended.
    pub stop: Stop,
    /// The bytes that it printed.
    pub output: Items<u8>,
    /// The ticks that it counted, the stopping one included.
    pub ticks: u64,
}

/// The answer for want of memory.
#[derive(Clone, Copy, PartialEq, Eq, Debug)]
pub struct NoMemory;

impl From<AllocError> for NoMemory {
    fn from(_error: AllocError) -> Self {
        NoMemory
    }
}

impl<T: Drop> From<AllocFailed<T>> for NoMemory {
    fn from(_error: AllocFailed<T>) -> Self {
        NoMemory
    }
}
