// The statements that hold no block and make no call.

ghost use Rattle.std.specs.Prelude.{◌≡◌, IfOk, ◌++◌, if◌then◌else◌};
ghost use Rattle.std.specs.Fmt.{signed_decimal};
ghost use Rattle.loop_rules.specs.Names.{operator_of};
ghost use Rattle.loop_meaning.specs.State.{State, declare, done, row_lines, table_of, has_cell};
ghost use Rattle.loop_meaning.specs.State.{with_cell, write_cell, print_line, print_table};
ghost use Rattle.loop_meaning.specs.Statements.{given, given_two, set_var, folded, put_cell};
ghost use Rattle.loop_meaning.specs.Ends.{state_of, Ends};

use crate::expression::{index_below, lookup, table_at, value_of};
use crate::memory::{Memory, assign, declare};
use crate::value::Answer;
use loop_syntax::{Expr, Name, Reduce, operator_of};
use reduce_ops::combine;
use std::alloc::Global;
use std::mem;
use table_text::push_row_text;
use tp_value::{Items, NoMemory, Stop, Table, TrapKind};

/// `let x = e;`
pub fn run_let(
    alloc: Global,
    memory: &mut Memory,
    variable: &Name,
    value: &Expr,
) -> Result<Stop, NoMemory>
    ensures { let s = state_of memory.old in IfOk result
        (λ y. Ends
        (given value.now s (λ n.
        done (record s { vars = declare s.vars variable.now.text.items n })))
        y
        (state_of memory.new)) }
{
    match value_of(memory, value) {
        Answer::Number(n) => {
            declare(alloc, memory, variable.text.as_slice(), n)?;
            Ok(Stop::Done)
        }
        Answer::Traps(kind, place) => Ok(Stop::Trap(kind, place)),
    }
}

/// `x = e;`
pub fn run_set(memory: &mut Memory, variable: &Name, value: &Expr) -> Stop
    ensures { let s = state_of memory.old in
        Ends (given value.now s (λ n. done (set_var variable.now n s))) result
        (state_of memory.new) }
{
    match value_of(memory, value) {
        Answer::Number(n) => {
            assign(memory, variable.text.as_slice(), n);
            Stop::Done
        }
        Answer::Traps(kind, place) => Stop::Trap(kind, place),
    }
}

/// `fold x with e;`
pub fn run_fold(memory: &mut Memory, reduces: &[Reduce], variable: &Name, value: &Expr) -> Stop
    ensures { let s = state_of memory.old in Ends
        (given value.now s
        (λ n. done
        (record s {
          vars = folded (operator_of reduces.now variable.now.text.items) s.vars
              variable.now.text.items n;
        })))
        result (state_of memory.new) }
{
    match value_of(memory, value) {
        Answer::Number(n) => {
            match operator_of(reduces, variable.text.as_slice()) {
                Some(op) => {
                    let old = lookup(&memory.vars, variable.text.as_slice());
                    assign(memory, variable.text.as_slice(), combine(op, old, n));
                }
                None => {}
            }
            Stop::Done
        }
        Answer::Traps(kind, place) => Stop::Trap(kind, place),
    }
}

fn push_number(alloc: Global, out: &mut Vec<u8>, n: i64) -> Result<(), NoMemory>
    ensures { IfOk result (λ u. out.new.items ≡ out.old.items ++ signed_decimal n) }
{
    let text = format!(in alloc; "{n}")?;
    out.extend_from_slice(text.as_bytes())?;
    Ok(())
}

/// `print e;`
pub fn run_print(alloc: Global, memory: &mut Memory, value: &Expr) -> Result<Stop, NoMemory>
    ensures { let s = state_of memory.old in IfOk result
        (λ y. Ends (given value.now s (λ n. done (print_line n s))) y (state_of memory.new)) }
{
    match value_of(memory, value) {
        Answer::Number(n) => {
            push_number(alloc, &mut memory.output, n)?;
            memory.output.push(b'\n')?;
            Ok(Stop::Done)
        }
        Answer::Traps(kind, place) => Ok(Stop::Trap(kind, place)),
    }
}

fn push_table(out: &mut Vec<u8>, table: &Table) -> Result<(), NoMemory>
    ensures { IfOk result
        (λ u.
        out.new.items
        ≡ out.old.items ++ row_lines table.now.rows table.now.cols table.now.cells) }
{
    let cols = table.cols as usize;
    let mut rest = table.cells.items();
    for k in 0..table.rows {
        let n = cols.min(rest.len());
        let (row, others) = rest.split_at(n);
        push_row_text(out, row)?;
        rest = others;
    }
    Ok(())
}

/// `emit t;`
pub fn run_emit(memory: &mut Memory, name: &Name) -> Result<Stop, NoMemory>
    ensures { let s = state_of memory.old in IfOk result
        (λ y.
        Ends (done (print_table (table_of s.tables name.now.text.items) s)) y
        (state_of memory.new)) }
{
    match table_at(&memory.tables, name.text.as_slice()) {
        Some(table) => push_table(&mut memory.output, table)?,
        None => {}
    }
    Ok(Stop::Done)
}

fn put_in(alloc: Global, table: &mut Table, i: i64, j: i64, n: i64) -> bool
    ensures answer { result ≡ has_cell table.old i j }
    ensures after { table.new
        ≡ (if has_cell table.old i j then with_cell table.old i j n else table.old) }
{
    let (row, col) = match (index_below(i, table.rows), index_below(j, table.cols)) {
        (Some(row), Some(col)) => (row, col),
        _ => return false,
    };
    let at = (row * u64::from(table.cols) + col) as usize;
    let mut cells = mem::replace(&mut table.cells, Items::new(Vec::new(alloc))).into_vec();
    if at < cells.len() {
        cells[at] = n;
    }
    table.cells = Items::new(cells);
    true
}

fn put_cell(alloc: Global, tables: &mut [Table], name: &[u8], i: i64, j: i64, n: i64) -> bool
    ensures answer { result ≡ has_cell (table_of tables.old name.now) i j }
    ensures after { tables.new
        ≡ (if has_cell (table_of tables.old name.now) i j then write_cell tables.old name.now i j n
        else
        tables.old) }
{
    for k in 0..tables.len() {
        if tables[k].name.items() == name {
            return put_in(alloc, &mut tables[k], i, j, n);
        }
    }
    false
}

/// `t[a][b] = e;`
pub fn run_put(
    alloc: Global,
    memory: &mut Memory,
    table: &Name,
    row: &Expr,
    column: &Expr,
    value: &Expr,
) -> Stop
    ensures { let s = state_of memory.old in Ends
        (given_two row.now column.now s (λ i j.
        given value.now s (λ n. put_cell table.now i j n s)))
        result
        (state_of memory.new) }
{
    match value_of(memory, row) {
        Answer::Number(i) => match value_of(memory, column) {
            Answer::Number(j) => match value_of(memory, value) {
                Answer::Number(n) => {
                    if put_cell(alloc, &mut memory.tables, table.text.as_slice(), i, j, n) {
                        Stop::Done
                    } else {
                        Stop::Trap(TrapKind::Index, table.place)
                    }
                }
                Answer::Traps(kind, place) => Stop::Trap(kind, place),
            },
            Answer::Traps(kind, place) => Stop::Trap(kind, place),
        },
        Answer::Traps(kind, place) => Stop::Trap(kind, place),
    }
}
