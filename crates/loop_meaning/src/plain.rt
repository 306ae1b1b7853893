// The run of a whole program.

ghost use Rattle.std.specs.Prelude.{◌≡◌, ◌+◌, ◌*◌, ◌≤◌, IfOk, MatchOption, [], min, unsigned_abs};
ghost use Rattle.std.specs.Prelude.{false, true};
ghost use Rattle.loop_meaning.specs.State.{table_of};
ghost use Rattle.loop_meaning.specs.Meaning.{meaning, cell_count, input_cells, is_bad_size};
ghost use Rattle.loop_meaning.specs.Meaning.{is_too_large, zero_table, make_tables, first_state};
ghost use Rattle.loop_meaning.specs.Meaning.{whole_run};
ghost use Rattle.loop_meaning.specs.Ends.{state_of, Ends};

use crate::expression::{table_at, value_of};
use crate::memory::Memory;
use crate::run::run_list;
use crate::setting::Setting;
use crate::value::Answer;
use loop_rules::Resolved;
use loop_syntax::{Name, TableDecl};
use std::alloc::Global;
use tp_value::{
    Items, MAX_FUEL, MAX_SIDE, MAX_TABLE_CELLS, NoMemory, Outcome, Stop, Table, TrapKind,
};

/// One more than the most cells that tables may have together: as good as any greater number.
const TOO_MANY_CELLS: u64 = MAX_TABLE_CELLS as u64 + 1;

/// The cells of a table, or `TOO_MANY_CELLS` where there are more.
fn cell_count(table: &Table) -> u64
    ensures { result ≡ min (cell_count table.now) TOO_MANY_CELLS }
{
    let (rows, cols) = (table.rows, table.cols);
    let cells = u64::from(rows) * u64::from(cols);
    cells.min(TOO_MANY_CELLS)
}

/// The cells of the table of that name, or `TOO_MANY_CELLS` where there are more.
fn cells_of(given: &[Table], name: &[u8]) -> u64
    ensures { result ≡ min (cell_count (table_of given.now name.now)) TOO_MANY_CELLS }
{
    match table_at(given, name) {
        Some(t) => cell_count(t),
        None => 0,
    }
}

/// The cells of all inputs, or `TOO_MANY_CELLS` where there are more.
fn input_cells(decls: &[TableDecl], given: &[Table]) -> u64
    ensures { result ≡ min (input_cells decls.now given.now) TOO_MANY_CELLS }
{
    let mut cells = 0u64;
    for d in decls {
        match d {
            TableDecl::Input(x) => {
                cells = (cells + cells_of(given, x.text.as_slice())).min(TOO_MANY_CELLS);
            }
            TableDecl::Made(_, _, _) => {}
        }
    }
    cells
}

fn copied(alloc: Global, given: &[Table], table: &[u8]) -> Result<Table, NoMemory>
    ensures { IfOk result (λ t. t ≡ table_of given.now table.now) }
{
    match table_at(given, table) {
        Some(t) => Ok(Table {
            name: Items::new(t.name.items().to_vec(alloc)?),
            rows: t.rows,
            cols: t.cols,
            cells: Items::new(t.cells.items().to_vec(alloc)?),
        }),
        None => Ok(Table {
            name: Items::new(Vec::new(alloc)),
            rows: 0,
            cols: 0,
            cells: Items::new(Vec::new(alloc)),
        }),
    }
}

fn is_bad_size(n: i64) -> bool
    ensures { result ≡ is_bad_size n }
{
    n < 0 || n > i64::from(MAX_SIDE)
}

/// The cells counted so far with those of a new table, or none where that is too large.
fn more_cells(cells: u64, i: i64, j: i64) -> Option<u64>
    requires { cells ≤ TOO_MANY_CELLS }
    ensures { MatchOption result (is_too_large cells i j ≡ true)
        (λ n. (is_too_large cells i j ≡ false)
        × (n ≡ cells + unsigned_abs i * unsigned_abs j)
        × (n ≤ MAX_TABLE_CELLS)
        × (unsigned_abs i ≤ MAX_SIDE)
        × (unsigned_abs j ≤ MAX_SIDE)) }
{
    if is_bad_size(i) || is_bad_size(j) {
        return None;
    }
    let n = cells + i.unsigned_abs() * j.unsigned_abs();
    if n > u64::from(MAX_TABLE_CELLS) {
        None
    } else {
        Some(n)
    }
}

fn make_table(alloc: Global, table: &Name, i: i64, j: i64) -> Result<Table, NoMemory>
    requires rows { unsigned_abs i ≤ MAX_SIDE }
    requires cols { unsigned_abs j ≤ MAX_SIDE }
    requires cells { unsigned_abs i * unsigned_abs j ≤ MAX_TABLE_CELLS }
    ensures { IfOk result (λ t. t ≡ zero_table table.now i j) }
{
    let name = Items::new(table.text.to_vec(alloc)?);
    let (rows, cols) = (i.unsigned_abs() as u32, j.unsigned_abs() as u32);
    let n = (rows as usize) * (cols as usize);
    let cells = Items::new(vec![in alloc; 0i64; n]?);
    Ok(Table {
        name,
        rows,
        cols,
        cells,
    })
}

/// Makes the tables in order of declaration.
fn make_tables(
    alloc: Global,
    given: &[Table],
    first: u64,
    decls: &[TableDecl],
    memory: &mut Memory,
) -> Result<Stop, NoMemory>
    requires { first ≤ TOO_MANY_CELLS }
    ensures { IfOk result
        (λ y.
        Ends (make_tables given.now first decls.now (state_of memory.old)) y
        (state_of memory.new)) }
{
    let mut cells = first;
    for d in decls {
        match d {
            TableDecl::Input(x) => memory
                .tables
                .push(copied(alloc, given, x.text.as_slice())?)?,
            TableDecl::Made(x, a, b) => match value_of(memory, a) {
                Answer::Number(i) => match value_of(memory, b) {
                    Answer::Number(j) => match more_cells(cells, i, j) {
                        Some(n) => {
                            memory.tables.push(make_table(alloc, x, i, j)?)?;
                            cells = n;
                        }
                        None => return Ok(Stop::Trap(TrapKind::Size, x.place)),
                    },
                    Answer::Traps(kind, place) => return Ok(Stop::Trap(kind, place)),
                },
                Answer::Traps(kind, place) => return Ok(Stop::Trap(kind, place)),
            },
        }
    }
    Ok(Stop::Done)
}

/// Makes the tables and runs main.
fn run_main(setting: &Setting, tables: &[Table], memory: &mut Memory) -> Result<Stop, NoMemory>
    requires no_reduces { setting.now.reduces.now ≡ [] }
    requires depth { setting.now.depth ≡ 0 }
    requires first { state_of memory.old ≡ first_state }
    ensures { IfOk result
        (λ y.
        Ends (whole_run setting.now.program.now tables.now setting.now.fuel) y
        (state_of memory.new)) }
{
    let cells = input_cells(&setting.program.tables, tables);
    match make_tables(
        setting.alloc,
        tables,
        cells,
        &setting.program.tables,
        memory,
    )? {
        Stop::Done => run_list(setting, memory, &setting.program.main),
        stop => Ok(stop),
    }
}

/// The outcome of a resolved program over given tables, with that much fuel in ticks: its serial
/// meaning, exactly. Tests alone call it.
pub fn plain_run(
    alloc: Global,
    program: &Resolved,
    tables: &[Table],
    fuel: u64,
) -> Result<Outcome, NoMemory>
    requires { fuel ≤ MAX_FUEL }
    ensures { IfOk result (λ outcome. outcome ≡ meaning program.now tables.now fuel) }
{
    let setting = Setting {
        alloc,
        program: program.program(),
        reduces: &[],
        fuel,
        depth: 0,
    };
    let mut memory = Memory {
        vars: Vec::new(alloc),
        tables: Vec::new(alloc),
        output: Vec::new(alloc),
        ticks: 0,
    };
    let stop = run_main(&setting, tables, &mut memory)?;
    Ok(Outcome {
        stop,
        output: Items::new(memory.output),
        ticks: memory.ticks,
    })
}
