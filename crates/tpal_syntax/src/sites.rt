// Where a parallel loop or a pair of calls stands in an activation. The handler and the join of a
// site are made from this alone. Labels are numbers of blocks; offsets are cells of the activation.

use crate::notes::CarryAt;
use tp_value::{Items, Op};

/// The site of a parallel loop.
#[derive(Drop)]
pub struct LoopSite {
    /// The number of its first block.
    pub label: u32,
    /// The cells of its activation.
    pub cells: u16,
    /// The cell of the next iteration that isn't begun.
    pub cursor: u16,
    /// The cell of the first iteration past the end.
    pub bound: u16,
    /// The cell of the record of the side's end, or of nothing.
    pub rec: u16,
    /// The cell of the mark.
    pub mark: u16,
    /// The cells of the accumulators, with their operators.
    pub accs: Items<(u16, Op)>,
    /// The parts of tables that the loop carries.
    pub carries: Items<CarryAt>,
}

/// The site of a leaf loop: a parallel loop in whose iterations nothing is cut. While it runs, its
/// next iteration stands in r24, its end in r25, and its accumulators from r26 on, at most 4. The
/// cells of these are those into which the registers are stored before it is cut.
#[derive(Drop)]
pub struct LeafSite {
    /// The number of its first block.
    pub label: u32,
    /// The cells of its activation.
    pub cells: u16,
    /// The cell for the next iteration that isn't begun.
    pub cursor: u16,
    /// The cell for the first iteration past the end.
    pub bound: u16,
    /// The cell of the record of the side's end, or of nothing.
    pub rec: u16,
    /// The cell of the mark.
    pub mark: u16,
    /// The cells for the accumulators, with their operators.
    pub accs: Items<(u16, Op)>,
    /// The parts of tables that the loop carries.
    pub carries: Items<CarryAt>,
}

/// The site of a pair of calls.
#[derive(Drop)]
pub struct CallSite {
    /// The number of its first block.
    pub label: u32,
    /// The cells of its activation.
    pub cells: u16,
    /// The cell of the record of the side's end, or of nothing.
    pub rec: u16,
    /// The cell of the mark.
    pub mark: u16,
    /// The block of the second function.
    pub entry: u32,
    /// The cells of its evaluated arguments.
    pub args: Items<u16>,
}
