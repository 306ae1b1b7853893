// What a task ends with.

ghost use Rattle.std.specs.Prelude.{◌≡◌, IfOk, OnErr, IsTrue, slice_set};
ghost use Rattle.tpal_machine.specs.Ended.{is_done, words_of, slices_of, side_of, ended};
ghost use Rattle.tpal_machine.specs.Memory.{Collects};
ghost use Rattle.tpal_machine.specs.Reading.{table_at, the_target, no_cells};
ghost use Rattle.tpal_machine.specs.Seen.{state_of};
ghost use Rattle.tpal_machine.specs.Step.{Ends};
ghost use Rattle.tp_value.specs.declared.values.Stop.TheVariants as stops;
ghost use Rattle.tpal_syntax.specs.Conditions.{are_distinct_tables};
ghost use Rattle.tpal_syntax.specs.Parts.{table_of};

use crate::blocks::{carries_of, renames_of};
use crate::ends::{Ending, Goal, Side};
use crate::records::register;
use crate::task::Machine;
use slices::Held;
use std::alloc::Global;
use std::mem::replace;
use tp_value::{Items, NoMemory, Outcome, Stop};
use tpal_syntax::{CarryAt, Code, Word};

pub(crate) fn is_done(stop: Stop) -> bool
    ensures { result ≡ is_done stop }
{
    match stop {
        Stop::Done => true,
        Stop::Left(_) | Stop::Trap(_, _) | Stop::NoFuel => false,
    }
}

/// The left names of a renaming with the words in these registers.
fn words_of(
    alloc: Global,
    registers: &[Word; 32],
    renames: &[(u8, u8)],
) -> Result<Vec<(u8, Word)>, NoMemory>
    ensures { IfOk result (λ words. words.items ≡ words_of registers.now renames.now) }
{
    let mut words = Vec::with_capacity(alloc, renames.len())?;
    for pair in renames {
        words.push((pair.0, register(registers, pair.0)))?;
    }
    Ok(words)
}

/// Takes what is held of a table.
#[tactic(auto, using(crate::proofs::Lists::set_beyond, crate::proofs::Holdings::holding_is))]
pub(crate) fn take_table(alloc: Global, tables: &mut Vec<Held>, table: u8) -> Held
    ensures taken { result ≡ table_at tables.old.items table }
    ensures left { tables.new.items ≡ slice_set tables.old.items table no_cells }
{
    let none = Held::none(alloc, 0, 0);
    if (table as usize) < tables.len() {
        replace(&mut tables[table as usize], none)
    } else {
        none
    }
}

pub(crate) fn table_of(item: CarryAt) -> u8
    ensures { result ≡ table_of item }
{
    match item {
        CarryAt::Rows { table, at: _ } => table,
        CarryAt::Cells {
            table,
            row: _,
            at: _,
        } => table,
    }
}

/// The carried tables with what is held of them, owned.
#[tactic(auto, using(crate::proofs::Handing::handed_more, crate::proofs::Handing::distinct_more))]
fn slices_of(
    alloc: Global,
    tables: Vec<Held>,
    carries: &[CarryAt],
) -> Result<Vec<(u8, Held)>, NoMemory>
    requires { IsTrue (are_distinct_tables carries.now) }
    ensures { IfOk result (λ slices. slices.items ≡ slices_of tables.items carries.now) }
{
    let mut tables = tables;
    let mut slices = Vec::new(alloc);
    for item in carries {
        let table = table_of(*item);
        let mut held = take_table(alloc, &mut tables, table);
        held.own()?;
        slices.push((table, held))?;
    }
    Ok(slices)
}

/// A side that stopped.
#[tactic(auto, using(crate::proofs::Memory::done_is))]
fn side_of(machine: Box<Machine>, code: &Code, target: u32, stop: Stop) -> Result<Side, NoMemory>
    ensures side { IfOk result (λ side.
        side ≡ side_of (the_target code.now target) stop (state_of machine.value)) }
    ensures memory { OnErr result (stop ≡ stops.Done) }
{
    let mut machine = machine;
    let alloc = *machine.output.allocator();
    let ticks = machine.fuel.spent();
    let output = replace(&mut machine.output, Vec::new(alloc));
    if !is_done(stop) {
        return Ok(Side {
            stop,
            ticks,
            output: Items::new(output),
            words: Items::new(Vec::new(alloc)),
            slices: Items::new(Vec::new(alloc)),
        });
    }
    let words = words_of(alloc, &machine.registers, renames_of(code, target))?;
    let tables = replace(&mut machine.tables, Vec::new(alloc));
    let slices = slices_of(alloc, tables, carries_of(code, target))?;
    Ok(Side {
        stop,
        ticks,
        output: Items::new(output),
        words: Items::new(words),
        slices: Items::new(slices),
    })
}

/// What a task ends with, by a stop.
pub(crate) fn ended(machine: Box<Machine>, code: &Code, stop: Stop) -> Result<Ending, NoMemory>
    ensures ended { IfOk result (λ ending. ending ≡ ended code.now stop (state_of machine.value)) }
    ensures memory { OnErr result (Collects (Ends (ended code.now stop (state_of machine.value)))) }
{
    match machine.goal {
        Goal::Root => {
            let mut machine = machine;
            let alloc = *machine.output.allocator();
            let output = replace(&mut machine.output, Vec::new(alloc));
            Ok(Ending::Root(Outcome {
                stop,
                ticks: machine.fuel.spent(),
                output: Items::new(output),
            }))
        }
        Goal::At { rec, side, target } => {
            let out = side_of(machine, code, target, stop)?;
            Ok(Ending::At { rec, side, out })
        }
    }
}
