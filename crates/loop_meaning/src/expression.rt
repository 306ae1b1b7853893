// The values of expressions.

ghost use Rattle.std.specs.Prelude.{◌≡◌, ◌+◌, ◌*◌, ◌<◌, MatchOption, false, true, unsigned_abs};
ghost use Rattle.std.specs.Prelude.{slice_index_or, pos};
ghost use Rattle.loop_meaning.specs.State.{lookup, table_of, no_table, has_cell, cell_of, is_below};
ghost use Rattle.loop_meaning.specs.Expressions.{eval, read_cell};

use crate::memory::Memory;
use crate::number::calculate;
use crate::value::{Answer, Variable};
use loop_syntax::{BinOp, Expr, Name};
use tp_value::{Table, TrapKind};

/// The value of the variable of that name, or 0 where there is none.
pub fn lookup(vars: &[Variable], name: &[u8]) -> i64
    ensures { result ≡ lookup vars.now name.now }
{
    for v in vars {
        if v.name.items() == name {
            return v.value;
        }
    }
    0
}

/// The table of that name.
pub fn table_at<'a>(tables: &'a [Table], name: &[u8]) -> Option<&'a Table>
    ensures { MatchOption result (table_of tables.now name.now ≡ no_table)
        (λ t. t.now ≡ table_of tables.now name.now) }
{
    for t in tables {
        if t.name.items() == name {
            return Some(t);
        }
    }
    None
}

/// The number as an index below n.
pub fn index_below(i: i64, n: u32) -> Option<u64>
    ensures { MatchOption result (is_below i n ≡ false)
        (λ k. (is_below i n ≡ true) × (k ≡ unsigned_abs i) × (k < n)) }
{
    if i < 0 {
        return None;
    }
    let k = i as u64;
    if k < u64::from(n) { Some(k) } else { None }
}

fn cell_at(table: &Table, row: u64, col: u64) -> i64
    requires row_in { row < table.now.rows }
    requires col_in { col < table.now.cols }
    ensures { result ≡ slice_index_or table.now.cells (row * table.now.cols + col) (pos 0) }
{
    let (_rows, cols) = (table.rows, table.cols);
    let at = row * u64::from(cols) + col;
    match table.cells.items().get(at as usize) {
        Some(v) => *v,
        None => 0,
    }
}

fn cell(table: &Table, i: i64, j: i64) -> Option<i64>
    ensures { MatchOption result (has_cell table.now i j ≡ false)
        (λ v. (has_cell table.now i j ≡ true) × (v ≡ cell_of table.now i j)) }
{
    let row = index_below(i, table.rows)?;
    let col = index_below(j, table.cols)?;
    Some(cell_at(table, row, col))
}

fn read_cell(tables: &[Table], name: &Name, i: i64, j: i64) -> Answer
    ensures { result ≡ (read_cell tables.now name.now i j).answer }
{
    let found = match table_at(tables, name.text.as_slice()) {
        Some(table) => cell(table, i, j),
        None => None,
    };
    match found {
        Some(v) => Answer::Number(v),
        None => Answer::Traps(TrapKind::Index, name.place),
    }
}

/// The value of an expression over variables and tables.
fn eval(vars: &[Variable], tables: &[Table], expression: &Expr) -> Answer
    ensures { result ≡ (eval vars.now tables.now expression.now).answer }
{
    match expression {
        Expr::Int(n, _) => Answer::Number(*n),
        Expr::Var(x) => Answer::Number(lookup(vars, x.text.as_slice())),
        Expr::Cell(t, a, b) => match eval(vars, tables, a) {
            Answer::Number(i) => match eval(vars, tables, b) {
                Answer::Number(j) => read_cell(tables, t, i, j),
                Answer::Traps(kind, place) => Answer::Traps(kind, place),
            },
            Answer::Traps(kind, place) => Answer::Traps(kind, place),
        },
        Expr::Rows(t) => match table_at(tables, t.text.as_slice()) {
            Some(table) => Answer::Number(i64::from(table.rows)),
            None => Answer::Number(0),
        },
        Expr::Cols(t) => match table_at(tables, t.text.as_slice()) {
            Some(table) => Answer::Number(i64::from(table.cols)),
            None => Answer::Number(0),
        },
        Expr::Neg(a, place) => match eval(vars, tables, a) {
            Answer::Number(n) => calculate(BinOp::Sub, *place, 0, n),
            Answer::Traps(kind, place) => Answer::Traps(kind, place),
        },
        Expr::Bin(op, place, a, b) => match eval(vars, tables, a) {
            Answer::Number(m) => match eval(vars, tables, b) {
                Answer::Number(n) => calculate(*op, *place, m, n),
                Answer::Traps(kind, place) => Answer::Traps(kind, place),
            },
            Answer::Traps(kind, place) => Answer::Traps(kind, place),
        },
    }
}

/// The value of an expression.
pub fn value_of(memory: &Memory, expression: &Expr) -> Answer
    ensures { result ≡ (eval memory.now.vars.items memory.now.tables.items expression.now).answer }
{
    eval(&memory.vars, &memory.tables, expression)
}
