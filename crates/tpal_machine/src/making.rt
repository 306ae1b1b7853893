// Making tables.

ghost use Rattle.std.specs.Prelude.{◌≡◌, ◌≤◌, ◌<◌, ◌-◌, ◌^◌, ◌==◌, ◌+◌, ◌*◌, nat_le, pos, min};
ghost use Rattle.std.specs.Prelude.{true, false, length, slice_get, IfOk, MatchOption, Ok};
ghost use Rattle.std.specs.List.{list_any};
ghost use Rattle.tpal_machine.specs.Answer.{GivesProgress};
ghost use Rattle.tpal_machine.specs.Effect as effect;
ghost use Rattle.tpal_machine.specs.Reading.{cell_count, zeros};
ghost use Rattle.tpal_machine.specs.Seen.{state_of, Keeps};

use crate::ends::Goal;
use crate::faults::Fault;
use crate::flow::Progress;
use crate::stops::stops;
use crate::task::Machine;
use crate::words::number_of;
use slices::Held;
use std::alloc::Global;
use tp_value::{MAX_SIDE, MAX_TABLE_CELLS, NoMemory, Place, Stop, TrapKind};
use tpal_syntax::{Code, CodeTable};

/// The number of rows or columns that a size is, where it is in the range of one.
#[tactic(auto, using(crate::proofs::Sizes::no_side, crate::proofs::Sizes::large_side))]
fn side_of(size: i64) -> Option<u32>
    ensures { MatchOption result (effect.is_side size ≡ false)
        (λ n. (size ≡ pos n) × (n ≤ MAX_SIDE)) }
{
    if size < 0 || size > i64::from(MAX_SIDE) {
        None
    } else {
        Some(size as u32)
    }
}

/// Whether a table is an input.
fn is_input(code: &Code, table: u8) -> bool
    ensures { result ≡ effect.is_input (slice_get code.now.tables table) }
{
    match code.tables().get(table as usize) {
        None => false,
        Some(found) => match found {
            CodeTable::Input(_) => true,
            CodeTable::Made => false,
        },
    }
}

fn was_made(made: &[u8], table: u8) -> bool
    ensures { result ≡ list_any (λ t. t == table) made.now }
{
    made.iter().any(|t| *t == table)
}

fn is_root(goal: Goal) -> bool
    ensures { result ≡ effect.is_root goal }
{
    match goal {
        Goal::Root => true,
        Goal::At {
            rec: _,
            side: _,
            target: _,
        } => false,
    }
}

fn is_makeable(machine: &Machine, code: &Code, table: u8) -> bool
    ensures { result ≡ effect.is_makeable code.now table (state_of machine.now) }
{
    !is_input(code, table) && !was_made(&machine.made, table) && is_root(machine.goal)
}

/// The cells of all tables together, or the greatest number that is counted.
#[tactic(auto, using(crate::proofs::Sizes::saturated))]
fn cell_count(tables: &[Held]) -> u64
    ensures { result ≡ min (cell_count tables.now) (2 ^ 64 - 1) }
{
    let mut count: u64 = 0;
    for held in tables {
        count = count.saturating_add(u64::from(held.rows()) * u64::from(held.cols()));
    }
    count
}

/// Whether a table of this size may stand beside the others.
#[tactic(auto, using(crate::proofs::Sizes::few_cells, crate::proofs::Sizes::many_cells))]
fn fits_beside(tables: &[Held], rows: u32, cols: u32) -> bool
    ensures { result ≡ nat_le (cell_count tables.now + rows * cols) MAX_TABLE_CELLS }
{
    let cells = u64::from(rows) * u64::from(cols);
    cell_count(tables).saturating_add(cells) <= u64::from(MAX_TABLE_CELLS)
}

/// A table of zeros.
#[tactic(auto, using(crate::proofs::Sizes::zeros_are))]
fn zeros(alloc: Global, rows: u32, cols: u32) -> Result<Held, NoMemory>
    ensures { IfOk result (λ held. held ≡ zeros rows cols) }
{
    let cells = vec![in alloc; 0_i64; rows as usize * cols as usize]?;
    Ok(Held::whole(rows, cols, cells))
}

/// Makes a table of this size, which fits beside the others.
fn make_zeros(machine: &mut Machine, table: u8, rows: u32, cols: u32) -> Progress
    requires { table < length machine.old.tables.items }
    ensures effect { GivesProgress
        (Ok (effect.Goes (effect.with_made (state_of machine.old) table rows cols)))
        result (state_of machine.new) }
    ensures kept { Keeps machine.old machine.new }
{
    match zeros(*machine.output.allocator(), rows, cols) {
        Err(_) => Progress::NoMemory,
        Ok(held) => {
            if machine.made.push(table).is_err() {
                return Progress::NoMemory;
            }
            machine.tables[table as usize] = held;
            Progress::Goes
        }
    }
}

/// Makes a table of a size in its range, or stops.
#[tactic(auto, using(crate::proofs::Sizes::made_zeros, crate::proofs::Sizes::made_beyond))]
fn make_within(machine: &mut Machine, table: u8, rows: u32, cols: u32, place: Place) -> Progress
    requires table { table < length machine.old.tables.items }
    requires rows { rows ≤ MAX_SIDE }
    requires cols { cols ≤ MAX_SIDE }
    ensures effect { GivesProgress
        (effect.made table (pos rows) (pos cols) place (state_of machine.old))
        result (state_of machine.new) }
    ensures kept { Keeps machine.old machine.new }
{
    if fits_beside(&machine.tables, rows, cols) {
        make_zeros(machine, table, rows, cols)
    } else {
        stops(machine, Stop::Trap(TrapKind::Size, place))
    }
}

/// Makes a table, or stops where its size is out of range or it doesn't fit beside the others.
#[tactic(auto, using(crate::proofs::Sizes::made_no_rows, crate::proofs::Sizes::made_no_cols))]
fn make_sized(machine: &mut Machine, table: u8, rows: i64, cols: i64, place: Place) -> Progress
    requires { table < length machine.old.tables.items }
    ensures effect { GivesProgress (effect.made table rows cols place (state_of machine.old)) result
        (state_of machine.new) }
    ensures kept { Keeps machine.old machine.new }
{
    match side_of(rows) {
        None => stops(machine, Stop::Trap(TrapKind::Size, place)),
        Some(rows) => match side_of(cols) {
            None => stops(machine, Stop::Trap(TrapKind::Size, place)),
            Some(cols) => make_within(machine, table, rows, cols, place),
        },
    }
}

/// `make tK, rA, rB, line, col`.
#[tactic(auto, using(crate::proofs::NoNumbers::on_number_none))]
pub(crate) fn make(
    machine: &mut Machine,
    code: &Code,
    table: u8,
    rows: u8,
    cols: u8,
    place: Place,
) -> Progress
    requires table { table < length machine.old.tables.items }
    requires rows { rows < 32 }
    requires cols { cols < 32 }
    ensures effect { GivesProgress
        (effect.make code.now table rows cols place (state_of machine.old))
        result (state_of machine.new) }
    ensures kept { Keeps machine.old machine.new }
{
    match number_of(machine.registers[rows as usize]) {
        Err(fault) => Progress::Fails(fault),
        Ok(rows) => match number_of(machine.registers[cols as usize]) {
            Err(fault) => Progress::Fails(fault),
            Ok(cols) => {
                if is_makeable(machine, code, table) {
                    make_sized(machine, table, rows, cols, place)
                } else {
                    Progress::Fails(Fault::Made)
                }
            }
        },
    }
}
