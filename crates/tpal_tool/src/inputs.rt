// The tables of a tables text, and what a program misses of them.

ghost use Rattle.std.specs.Prelude.{◌≡◌, ◌≤◌, None, All, IfErr, IfOk, OnOk, length, option_map};
ghost use Rattle.scene_laws.specs.Tables.{IsTable};
ghost use Rattle.tp_value.specs.declared.limits.TheConstants.{MAX_TABLES_BYTES};
ghost use Rattle.table_text.specs.TablesText.{TablesOf};
ghost use Rattle.tpal_tool.specs.Answering.{IsFaultOf, RefusesMissing, RefusesTables};
ghost use Rattle.tpal_tool.specs.Inputs.{first_missing, is_given};

use crate::refusal::{CallFault, Refusal};
use loop_syntax::TableDecl;
use std::alloc::Global;
use table_text::{TableFault, read_tables};
use tp_value::Table;

/// The tables of a tables text.
pub fn tables_of(alloc: Global, text: &[u8]) -> Result<Vec<Table>, CallFault>
    requires { length text.now ≤ MAX_TABLES_BYTES }
    ensures are { IfOk result (λ given. TablesOf text.now given.items) }
    ensures tables { IfOk result (λ given. All IsTable given.items) }
    ensures fault { IfErr result (IsFaultOf (RefusesTables text.now) ⊥) }
{
    match read_tables(alloc, text) {
        Ok(given) => Ok(given),
        Err(TableFault::NoMemory) => Err(CallFault::NoMemory),
        Err(fault) => Err(CallFault::Refused(Refusal::Tables(fault))),
    }
}

pub fn is_given(tables: &[Table], name: &[u8]) -> bool
    ensures { result ≡ is_given tables.now name.now }
{
    tables.iter().any(|table| table.name.items() == name)
}

/// The first declared input, in order, that has no table of its name.
fn first_missing<'a>(declared: &'a [TableDecl], given: &[Table]) -> Option<&'a [u8]>
    ensures { option_map (λ name. name.now) result ≡ first_missing declared.now given.now }
{
    for declaration in declared {
        match declaration {
            TableDecl::Input(name) => {
                if !is_given(given, &name.text) {
                    return Some(&name.text);
                }
            }
            TableDecl::Made(_, _, _) => {}
        }
    }
    None
}

/// Refuses tables that lack one of a declared input.
pub fn have_all(alloc: Global, declared: &[TableDecl], given: &[Table]) -> Result<(), CallFault>
    ensures complete { OnOk result (first_missing declared.now given.now ≡ None) }
    ensures fault { IfErr result (IsFaultOf (RefusesMissing declared.now given.now) ⊥) }
{
    match first_missing(declared, given) {
        None => Ok(()),
        Some(name) => {
            let name = Vec::from_slice(alloc, name)?;
            Err(CallFault::Refused(Refusal::Missing(name)))
        }
    }
}
