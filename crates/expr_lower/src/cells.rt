// The instructions that read a cell of a table, with the tests of its row and its column.

ghost use Rattle.std.specs.Prelude.{◌≡◌, ◌≤◌, ◌+◌, ◌++◌, ◌∷◌, [], OnOk};
ghost use Rattle.expr_lower.specs.Registers.{last_left};
ghost use Rattle.expr_lower.specs.Bodies.{below_test, row_test, col_test, range_tests, cell_read};

use crate::registers::{LAST_LEFT, Places};
use tp_value::{NoMemory, Place};
use tpal_syntax::{Alu, Instr, Value};

// Appends a trap where the row or the column is below 0.
fn push_below_test(
    body: &mut Vec<Instr>,
    row: u8,
    col: u8,
    test: u8,
    trap: u32,
) -> Result<(), NoMemory>
    ensures { OnOk result (body.new.items ≡ body.old.items ++ below_test row col test trap) }
{
    body.push(Instr::Calc {
        to: test,
        left: row,
        alu: Alu::Min,
        right: Value::Reg(col),
    })?;
    body.push(Instr::Calc {
        to: test,
        left: test,
        alu: Alu::Lt,
        right: Value::Int(0),
    })?;
    body.push(Instr::IfJump { test, label: trap })?;
    Ok(())
}

// Appends a trap where the row isn't below the number of rows.
fn push_row_test(
    body: &mut Vec<Instr>,
    table: u8,
    row: u8,
    test: u8,
    trap: u32,
) -> Result<(), NoMemory>
    ensures { OnOk result (body.new.items ≡ body.old.items ++ row_test table row test trap) }
{
    body.push(Instr::Rows { to: test, table })?;
    body.push(Instr::Calc {
        to: test,
        left: test,
        alu: Alu::Le,
        right: Value::Reg(row),
    })?;
    body.push(Instr::IfJump { test, label: trap })?;
    Ok(())
}

// Appends a trap where the column isn't below the number of columns.
fn push_col_test(
    body: &mut Vec<Instr>,
    table: u8,
    col: u8,
    test: u8,
    trap: u32,
) -> Result<(), NoMemory>
    ensures { OnOk result (body.new.items ≡ body.old.items ++ col_test table col test trap) }
{
    body.push(Instr::Cols { to: test, table })?;
    body.push(Instr::Calc {
        to: test,
        left: test,
        alu: Alu::Le,
        right: Value::Reg(col),
    })?;
    body.push(Instr::IfJump { test, label: trap })?;
    Ok(())
}

/// Appends a jump to the block at `trap` where the row and the column in two registers are those of
/// no cell of a table. It tests them in a third register, and changes no other.
pub fn push_range_tests(
    body: &mut Vec<Instr>,
    table: u8,
    row: u8,
    col: u8,
    test: u8,
    trap: u32,
) -> Result<(), NoMemory>
    ensures { OnOk result (body.new.items ≡ body.old.items ++ range_tests table row col test trap) }
{
    push_below_test(body, row, col, test, trap)?;
    push_row_test(body, table, row, test, trap)?;
    push_col_test(body, table, col, test, trap)
}

/// The read of a cell: where the table's name stands, its number, the registers, and the
/// instructions of the row and of the column, behind which these stand in their registers.
#[derive(Clone, Copy)]
pub struct CellRead<'a> {
    pub place: Place,
    pub table: u8,
    pub at: Places,
    pub row: &'a [Instr],
    pub col: &'a [Instr],
}

impl CellRead<'_> {
    // Appends the tests in the registers where the instructions of the row and the column leave
    // them, and these instructions once more.
    fn push_tests_in_place(self, body: &mut Vec<Instr>, trap: u32) -> Result<(), NoMemory>
        requires { self.at.to ≤ last_left }
        ensures { OnOk result
            (body.new.items
            ≡ body.old.items
            ++ (below_test self.entry.at.left self.entry.at.right (self.entry.at.to + 1) trap
            ++ (row_test self.entry.table self.entry.at.left (self.entry.at.to + 1) trap
            ++ (self.entry.col.now
            ++ (col_test self.entry.table self.entry.at.right self.entry.at.to trap
            ++ (self.entry.row.now ++ self.entry.col.now)))))) }
    {
        let CellRead {
            table,
            at,
            row,
            col,
            ..
        } = self;
        push_below_test(body, at.left, at.right, at.to + 1, trap)?;
        push_row_test(body, table, at.left, at.to + 1, trap)?;
        body.extend_from_slice(col)?;
        push_col_test(body, table, at.right, at.to, trap)?;
        body.extend_from_slice(row)?;
        body.extend_from_slice(col)?;
        Ok(())
    }

    /// Appends the instructions that read the cell.
    pub fn push_read(self, body: &mut Vec<Instr>, trap: u32) -> Result<(), NoMemory>
        requires { self.at.to ≤ last_left }
        ensures { OnOk result
            (body.new.items
            ≡ body.old.items
            ++ cell_read self.entry.table self.entry.at.to self.entry.at.left self.entry.at.right
            self.entry.row.now self.entry.col.now trap) }
    {
        let CellRead {
            table,
            at,
            row,
            col,
            ..
        } = self;
        body.extend_from_slice(row)?;
        body.extend_from_slice(col)?;
        if at.to < LAST_LEFT {
            push_range_tests(body, table, at.left, at.right, at.to + 2, trap)?;
        } else {
            self.push_tests_in_place(body, trap)?;
        }
        body.push(Instr::Fetch {
            to: at.to,
            table,
            row: at.left,
            col: at.right,
        })?;
        Ok(())
    }
}
