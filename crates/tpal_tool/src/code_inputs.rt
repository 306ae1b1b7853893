// The tables that a run begins with.

ghost use Rattle.std.specs.Prelude.{◌≡◌, None, All, IfErr, IfOk, OnOk, bytes_eq, option_map, true};
ghost use Rattle.std.specs.List.{position};
ghost use Rattle.loop_meaning.specs.State.{table_of};
ghost use Rattle.scene_laws.specs.Tables.{IsTable, IsWholeOf};
ghost use Rattle.tpal_tool.specs.Answering.{IsFaultOf, RefusesMissingInput};
ghost use Rattle.tpal_tool.specs.CodeInputs.{AreCodeHeld, first_missing_input};
ghost use Rattle.tpal_tool.specs.Inputs.{is_given, without};

use crate::inputs::is_given;
use crate::refusal::{CallFault, Refusal};
use slices::Held;
use std::alloc::Global;
use tp_value::{NoMemory, Table};
use tpal_syntax::{Code, CodeTable};

/// The first input of a code, in order, that has no table of its name.
fn first_missing_input<'a>(tables: &'a [CodeTable], given: &[Table]) -> Option<&'a [u8]>
    ensures { option_map (λ name. name.now) result ≡ first_missing_input tables.now given.now }
{
    for table in tables {
        match table {
            CodeTable::Input(name) => {
                if !is_given(given, name.items()) {
                    return Some(name.items());
                }
            }
            CodeTable::Made => {}
        }
    }
    None
}

/// Refuses tables that lack one of an input of a code.
pub fn have_inputs(alloc: Global, tables: &[CodeTable], given: &[Table]) -> Result<(), CallFault>
    ensures complete { OnOk result (first_missing_input tables.now given.now ≡ None) }
    ensures fault { IfErr result (IsFaultOf (RefusesMissingInput tables.now given.now) ⊥) }
{
    match first_missing_input(tables, given) {
        None => Ok(()),
        Some(name) => {
            let name = Vec::from_slice(alloc, name)?;
            Err(CallFault::Refused(Refusal::Missing(name)))
        }
    }
}

fn place_of(tables: &[Table], name: &[u8]) -> Option<usize>
    ensures { result ≡ position (λ table. bytes_eq table.name name.now) tables.now }
{
    tables.iter().position(|table| table.name.items() == name)
}

/// Takes the table of that name out of the tables, and holds it whole. Its cells are moved.
fn take_input(given: &mut Vec<Table>, name: &[u8]) -> Held
    requires given { is_given given.old.items name.now ≡ true }
    requires tables { All IsTable given.old.items }
    ensures whole { IsWholeOf result (table_of given.old.items name.now) }
    ensures owned { result.owned ≡ true }
    ensures others { given.new.items ≡ without given.old.items name.now }
{
    match place_of(given, name) {
        Some(at) => {
            let Table {
                name: _,
                rows,
                cols,
                cells,
            } = given.remove(at);
            Held::whole(rows, cols, cells.into_vec())
        }
        None => unreachable!(),
    }
}

/// What the first task of a run of a code holds: the given tables of its inputs, and of each table
/// that is made none, of size 0 by 0.
pub fn hold_inputs(alloc: Global, code: &Code, mut given: Vec<Table>) -> Result<Vec<Held>, NoMemory>
    requires complete { first_missing_input code.now.tables given.items ≡ None }
    requires tables { All IsTable given.items }
    ensures { IfOk result (λ held. AreCodeHeld code.now.tables given.items held.items) }
{
    let mut held = Vec::new(alloc);
    for table in code.tables() {
        let table = match table {
            CodeTable::Input(name) => take_input(&mut given, name.items()),
            CodeTable::Made => Held::none(alloc, 0, 0),
        };
        held.push(table)?;
    }
    Ok(held)
}
