// The shapes of cells.

ghost use Rattle.std.specs.Prelude.{◌≡◌};
ghost use Rattle.loop_rules.specs.Carries.{is_var, is_int, is_row, fits, has_shape, is_rows_item};
ghost use Rattle.loop_rules.specs.Carries.{is_within};
ghost use Rattle.loop_rules.specs.Names.{item_of};
ghost use Rattle.loop_check.specs.Walk.{loop_of};

use crate::names::item_of;
use crate::round::Round;
use loop_syntax::{Carry, Expr, RowAt};

/// Whether an index is that bare name.
fn is_var(index: &Expr, name: &[u8]) -> bool
    ensures { result ≡ is_var index.now name.now }
{
    match index {
        Expr::Var(x) => x.text.as_slice() == name,
        Expr::Int(_, _) => false,
        Expr::Cell(_, _, _) => false,
        Expr::Rows(_) => false,
        Expr::Cols(_) => false,
        Expr::Neg(_, _) => false,
        Expr::Bin(_, _, _, _) => false,
    }
}

/// Whether an index is that bare literal, by its value.
fn is_int(index: &Expr, number: i64) -> bool
    ensures { result ≡ is_int index.now number }
{
    match index {
        Expr::Int(n, _) => *n == number,
        Expr::Var(_) => false,
        Expr::Cell(_, _, _) => false,
        Expr::Rows(_) => false,
        Expr::Cols(_) => false,
        Expr::Neg(_, _) => false,
        Expr::Bin(_, _, _, _) => false,
    }
}

fn is_row(fixed: &RowAt, index: &Expr) -> bool
    ensures { result ≡ is_row fixed.now index.now }
{
    match fixed {
        RowAt::Var(k) => is_var(index, &k.text),
        RowAt::Int(n) => is_int(index, *n),
    }
}

/// Whether a cell has the shape of a carry item.
fn fits(item: &Carry, row: &Expr, column: &Expr) -> bool
    ensures { result ≡ fits item.now row.now column.now }
{
    match item {
        Carry::Rows(_, i) => is_var(row, &i.text),
        Carry::Cells(_, k, j) => is_row(k, row) && is_var(column, &j.text),
    }
}

/// Whether a `par` carries t, and the cell has the shape of that item.
pub fn has_shape(round: &Round, table: &[u8], row: &Expr, column: &Expr) -> bool
    ensures { result ≡ has_shape (loop_of round.now) table.now row.now column.now }
{
    match item_of(&round.par.carries, table) {
        Some(c) => fits(c, row, column),
        None => false,
    }
}

/// Whether a `par` carries `t[i]` with the row i.
fn carries_row(round: &Round, table: &[u8], fixed: &RowAt) -> bool
    ensures { result ≡ is_rows_item (item_of (loop_of round.now).carries table.now) fixed.now }
{
    match item_of(&round.par.carries, table) {
        Some(Carry::Rows(_, i)) => match fixed {
            RowAt::Var(k) => i.text.as_slice() == k.text.as_slice(),
            RowAt::Int(_) => false,
        },
        Some(Carry::Cells(_, _, _)) => false,
        None => false,
    }
}

/// Whether an item is `t[i][j]` where that `par` carries `t[i]`.
pub fn is_within(round: &Round, item: &Carry) -> bool
    ensures { result ≡ is_within (loop_of round.now) item.now }
{
    match item {
        Carry::Rows(_, _) => false,
        Carry::Cells(t, k, _) => carries_row(round, &t.text, k),
    }
}
