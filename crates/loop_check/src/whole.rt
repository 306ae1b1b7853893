// The walk over a whole program: the bodies of its functions, and main.

ghost use Rattle.std.specs.Prelude.{◌≡◌, IfOk, None, [], map};
ghost use Rattle.loop_rules.specs.Names.{texts};
ghost use Rattle.loop_rules.specs.Sites.{sites, in_list};
ghost use Rattle.loop_rules.specs.Search.{lowest_in};
ghost use Rattle.loop_check.specs.Search.{checked_rules};
ghost use Rattle.loop_check.specs.Walk.{texts_of, spot};
ghost use Rattle.loop_check.specs.Whole.{lowest_of_funcs};

use crate::reader::Reader;
use crate::spot::Spot;
use crate::statement::in_list;
use loop_rules::Fault;
use loop_syntax::{Func, Name, Program, Stmt};
use std::alloc::Global;
use tp_value::NoMemory;

/// The texts of names.
fn texts<'a>(alloc: Global, names: &'a [Name]) -> Result<Vec<&'a [u8]>, NoMemory>
    ensures { IfOk result (λ xs. texts_of xs.items ≡ texts names.now) }
{
    let mut xs = Vec::new(alloc);
    for x in names {
        xs.push(x.text.as_slice())?;
    }
    Ok(xs)
}

/// A body outside all loops, where these variables are visible.
fn in_body<'a>(
    alloc: Global,
    scope: Vec<&'a [u8]>,
    readers: &[Reader],
    found: &mut Option<Fault>,
    body: &'a [Stmt],
) -> Result<(), NoMemory>
    ensures { IfOk result
        (λ u. found.new
        ≡ lowest_in (checked_rules readers.now) found.old
        (in_list (spot (texts_of scope.entry.items) [] []) body.now)) }
{
    let mut w = Spot {
        scope,
        loops: Vec::new(alloc),
        rounds: &[],
    };
    in_list(alloc, &mut w, readers, found, body)
}

fn in_func(
    alloc: Global,
    readers: &[Reader],
    found: &mut Option<Fault>,
    func: &Func,
) -> Result<(), NoMemory>
    ensures { IfOk result
        (λ u. found.new
        ≡ lowest_in (checked_rules readers.now) found.old
        (in_list (spot (texts func.now.params.items) [] []) func.now.body.items)) }
{
    let scope = texts(alloc, &func.params)?;
    in_body(alloc, scope, readers, found, &func.body)
}

fn in_funcs(
    alloc: Global,
    readers: &[Reader],
    found: &mut Option<Fault>,
    funcs: &[Func],
) -> Result<(), NoMemory>
    ensures { IfOk result (λ u. found.new ≡ lowest_of_funcs readers.now found.old funcs.now) }
{
    for f in funcs {
        in_func(alloc, readers, found, f)?;
    }
    Ok(())
}

fn in_main(
    alloc: Global,
    readers: &[Reader],
    found: &mut Option<Fault>,
    body: &[Stmt],
) -> Result<(), NoMemory>
    ensures { IfOk result
        (λ u.
        found.new
        ≡ lowest_in (checked_rules readers.now) found.old (in_list (spot [] [] []) body.now)) }
{
    in_body(alloc, Vec::new(alloc), readers, found, body)
}

/// The first broken rule of a program, where one is broken.
pub fn first_fault(
    alloc: Global,
    program: &Program,
    readers: &[Reader],
) -> Result<Option<Fault>, NoMemory>
    ensures { IfOk result (λ fault.
        fault ≡ lowest_in (checked_rules readers.now) None (sites program.now)) }
{
    let mut found = None;
    in_funcs(alloc, readers, &mut found, &program.funcs)?;
    in_main(alloc, readers, &mut found, &program.main)?;
    Ok(found)
}
