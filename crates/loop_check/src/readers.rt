// Which functions read which tables, themselves or through calls.

ghost use Rattle.std.specs.Prelude.{◌≡◌, ◌++◌, IfOk, map};
ghost use Rattle.loop_rules.specs.Sites.{tables_of};
ghost use Rattle.loop_check.specs.Walk.{texts_of};
ghost use Rattle.loop_check.specs.Readers.{add_users, IsReadersOf, pair, pairs_of, IsReaders};

use crate::names::is_in;
use crate::reader::Reader;
use crate::usage::{Usage, uses};
use loop_syntax::Program;
use std::alloc::Global;
use tp_value::NoMemory;

/// Adds the functions that do that, each once.
fn add_users<'a>(
    names: &mut Vec<&'a [u8]>,
    program: &'a Program,
    usage: &Usage,
) -> Result<(), NoMemory>
    ensures { IfOk result
        (λ r. texts_of names.new.items
        ≡ add_users program.now usage.now program.now.funcs.items (texts_of names.old.items)) }
{
    for f in &program.funcs {
        if !is_in(names, &f.name.text) && uses(program, &f.name.text, usage) {
            names.push(&f.name.text)?;
        }
    }
    Ok(())
}

/// The functions that read a table. Those that read it themselves come first; behind each function
/// come those that call it.
fn readers_of<'a>(
    alloc: Global,
    program: &'a Program,
    table: &[u8],
) -> Result<Vec<&'a [u8]>, NoMemory>
    ensures { IfOk result (λ names. IsReadersOf program.now table.now (texts_of names.items)) }
{
    let mut names = Vec::new(alloc);
    add_users(&mut names, program, &Usage::Reads(table))?;
    for i in 0..usize::MAX {
        if i >= names.len() {
            return Ok(names);
        }
        let f = names[i];
        add_users(&mut names, program, &Usage::Calls(f))?;
    }
    Ok(names)
}

/// The readers with those of one more table.
fn push_readers<'a>(
    readers: &mut Vec<Reader<'a>>,
    names: &[&'a [u8]],
    table: &'a [u8],
) -> Result<(), NoMemory>
    ensures { IfOk result
        (λ r. pairs_of readers.new.items
        ≡ pairs_of readers.old.items ++ map (pair table.now) (texts_of names.now)) }
{
    for func in names {
        readers.push(Reader { func: *func, table })?;
    }
    Ok(())
}

/// The functions that read declared tables, each with each table that it reads.
pub fn all_readers<'a>(alloc: Global, program: &'a Program) -> Result<Vec<Reader<'a>>, NoMemory>
    ensures { IfOk result (λ readers. IsReaders program.now (tables_of program.now) readers.items) }
{
    let mut readers = Vec::new(alloc);
    for d in &program.tables {
        let t = d.name();
        let names = readers_of(alloc, program, &t.text)?;
        push_readers(&mut readers, &names, &t.text)?;
    }
    Ok(readers)
}
