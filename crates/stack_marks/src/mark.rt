// Marks, and why a call is refused.

ghost use Rattle.std.specs.Prelude.{◌≡◌};

use std::alloc::AllocError;

/// A mark on a cell: an activation that may be cut there.
#[derive(Clone, Copy, PartialEq, Eq, Debug)]
pub struct Mark {
    /// The position of the cell that carries it.
    pub at: u64,
    /// The position of the activation's lowest cell.
    pub base: u64,
    /// The number of the activation's cells.
    pub cells: u64,
    /// The block that handles a cut.
    pub split: u32,
}

/// Why a call is refused.
#[derive(Clone, Copy, PartialEq, Eq, Debug)]
pub enum StackFault {
    /// A position or a range of them isn't in the stack.
    OutOfRange,
    /// No mark stands on the cell.
    NotMarked,
    /// A cell that was to be taken off carries a mark.
    MarkedCell,
    /// A mark stands on the same cell or above.
    MarkOrder,
    /// The cells would reach past the greatest position.
    TooLong,
    /// Memory is wanting.
    NoMemory,
}

impl From<AllocError> for StackFault {
    ghost use Rattle.stack_marks.specs.declared.mark.StackFault.TheVariants.{NoMemory};

    ghost from_gives = { λ _ fault. fault ≡ NoMemory };

    fn from(_error: AllocError) -> Self {
        StackFault::NoMemory
    }
}
