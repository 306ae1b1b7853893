// Instructions that print.

ghost use Rattle.std.specs.Prelude.{◌≡◌, ◌<◌, if◌then◌else◌, length, IfOk, Some, None};
ghost use Rattle.tpal_machine.specs.Answer.{GivesOr};
ghost use Rattle.tpal_machine.specs.Effect as effect;
ghost use Rattle.tpal_machine.specs.Seen.{state_of, Keeps};

use crate::faults::Fault;
use crate::flow::Trouble;
use crate::task::Machine;
use crate::words::number_of;
use slices::Held;
use table_text::push_row_text;
use tp_value::NoMemory;

/// `print rA`.
#[tactic(auto, using(crate::proofs::NoNumbers::on_number_none))]
pub(crate) fn print(machine: &mut Machine, r: u8) -> Result<(), Trouble>
    requires { r < 32 }
    ensures effect { GivesOr (effect.print r (state_of machine.old)) result (state_of machine.new) }
    ensures kept { Keeps machine.old machine.new }
{
    let number = number_of(machine.registers[r as usize])?;
    push_row_text(&mut machine.output, &[number])?;
    Ok(())
}

/// Appends the numbers of a row to a list; false where a cell isn't held.
#[tactic(auto, using(crate::proofs::Lines::numbers_end, crate::proofs::Lines::numbers_more, crate::proofs::Lines::numbers_none))]
fn push_row(row: &mut Vec<i64>, held: &Held, at: u32) -> Result<bool, NoMemory>
    ensures { IfOk result
        (λ all. effect.appended row.old.items (effect.row_numbers held.now at)
        ≡ (if all then Some row.new.items else None)) }
{
    let cols = held.cols();
    for col in 0..cols {
        match held.fetch(i64::from(at), i64::from(col)) {
            None => return Ok(false),
            Some(number) => row.push(number)?,
        }
    }
    Ok(true)
}

/// Appends the line of a row; false where a cell isn't held.
#[tactic(auto, using(crate::proofs::Lines::line_there, crate::proofs::Lines::line_missing))]
fn push_line(output: &mut Vec<u8>, held: &Held, at: u32) -> Result<bool, NoMemory>
    ensures { IfOk result
        (λ all. effect.appended output.old.items (effect.line held.now at)
        ≡ (if all then Some output.new.items else None)) }
{
    let mut row = Vec::new(*output.allocator());
    if !push_row(&mut row, held, at)? {
        return Ok(false);
    }
    push_row_text(output, &row)?;
    Ok(true)
}

/// Appends the lines of a table; false where a cell isn't held.
#[tactic(auto, using(crate::proofs::Lines::rows_end, crate::proofs::Lines::rows_more, crate::proofs::Lines::rows_none))]
fn push_lines(output: &mut Vec<u8>, held: &Held) -> Result<bool, NoMemory>
    ensures { IfOk result
        (λ all. effect.appended output.old.items (effect.table_lines held.now)
        ≡ (if all then Some output.new.items else None)) }
{
    let rows = held.rows();
    for at in 0..rows {
        if !push_line(output, held, at)? {
            return Ok(false);
        }
    }
    Ok(true)
}

/// `emit tK`.
#[tactic(auto, using(crate::proofs::Lines::printed, crate::proofs::Lines::not_printed))]
pub(crate) fn emit(machine: &mut Machine, table: u8) -> Result<(), Trouble>
    requires { table < length machine.old.tables.items }
    ensures effect { GivesOr (effect.emit table (state_of machine.old)) result
        (state_of machine.new) }
    ensures kept { Keeps machine.old machine.new }
{
    if push_lines(&mut machine.output, &machine.tables[table as usize])? {
        Ok(())
    } else {
        Err(Trouble::Stuck(Fault::NotHeld))
    }
}
