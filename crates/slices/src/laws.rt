// What is cut out and appended again is what was there. The functions do nothing: their contracts
// are laws over what the calls make of a value, for those who reason about several calls.

ghost use Rattle.std.specs.Prelude.{◌≡◌};
ghost use Rattle.slices.specs.Holding.{rows_below, rows_from, without_row, row_below, row_from};
ghost use Rattle.slices.specs.Holding.{together, own, CommonCell};

use crate::table::Held;

/// The rows below any row and those from it on have no cell in common, and together they are the
/// cells that were cut, owned.
pub fn rows_join_again(held: &Held, at: i64)
    ensures apart { CommonCell (rows_below held.now at) (rows_from held.now at) → ⊥ }
    ensures joined { together (rows_below held.now at) (rows_from held.now at) ≡ own held.now }
{}

/// The other rows, the row's cells below any column, and those from it on have no cell in common,
/// and together they are the cells that were cut, owned.
pub fn cells_join_again(held: &Held, row: i64, at: i64)
    ensures lower_apart { CommonCell (without_row held.now row) (row_below held.now row at) → ⊥ }
    ensures upper_apart { CommonCell (together (without_row held.now row) (row_below held.now row
        at))
        (row_from held.now row at)
        → ⊥ }
    ensures joined { together (together (without_row held.now row) (row_below held.now row at))
        (row_from held.now row at)
        ≡ own held.now }
{}
