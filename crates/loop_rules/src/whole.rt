// The walk over a whole program: its tables, its functions and main.

ghost use Rattle.std.specs.Prelude.{◌≡◌, ◌∷◌, [], IfOk, MatchOption, Some, None};
ghost use Rattle.loop_rules.specs.Names.{texts, func_names, func_of, first_named};
ghost use Rattle.loop_rules.specs.Declarations.{tables_of_decls};
ghost use Rattle.loop_rules.specs.Scopes.{is_func_before, is_table_by};
ghost use Rattle.loop_rules.specs.Sites.{site, sites, top, tables_of, in_decl, in_decls, in_func};
ghost use Rattle.loop_rules.specs.Sites.{in_funcs, in_main, DeclaresTable, DeclaresFunc};
ghost use Rattle.loop_rules.specs.Search.{lowest_at, lowest_in, resolved_rules};
ghost use Rattle.loop_rules.specs.Walk.{spot_of};

use crate::declared::Declared;
use crate::expression::{func_of, in_whole};
use crate::fault::{Fault, is_before, note_if};
use crate::function::{declares_all, in_func, ninth_parameter};
use crate::part::Part;
use crate::rule::Rule;
use crate::scope::Scope;
use crate::spot::Spot;
use crate::statement::in_list;
use loop_syntax::{Func, Name, Program, TableDecl};
use std::alloc::Global;
use tp_value::{MAX_FUNCTIONS, MAX_TABLES, NoMemory};

/// Where no variable is visible.
fn top<'a, 'b>(
    alloc: Global,
    part: Part,
    decls: &'a [TableDecl],
    tables: &'b Scope<'a>,
    all: &'a [Func],
    funcs: &'b Scope<'a>,
) -> Spot<'a, 'b>
    requires named { tables.now ≡ texts (tables_of_decls decls.now) }
    requires known { funcs.now ≡ func_names all.now }
    ensures spot { spot_of result ≡ top part (tables_of_decls decls.now) all.now }
    ensures decls { result.decls.now ≡ decls.now }
    ensures all { result.all.now ≡ all.now }
{
    Spot {
        part,
        decls,
        tables,
        all,
        funcs,
        scope: Scope::new(alloc),
        loops: Scope::new(alloc),
        rounds: Vec::new(alloc),
    }
}

// Tables.

/// Whether the function of that name is declared before it.
fn is_func_before(spot: &Spot, name: &Name) -> bool
    ensures { result ≡ is_func_before (func_of spot.now.all.now name.now.text.items) name.now }
{
    match func_of(spot, &name.text) {
        Some(f) => is_before(f.name.place, name.place),
        None => false,
    }
}

fn declares_table(spot: &Spot, found: &mut Option<Fault>, table: &Name)
    ensures { found.new
        ≡ lowest_at resolved_rules found.old (site (spot_of spot.now) (DeclaresTable table.now)) }
{
    let taken = spot.tables.contains(&table.text) || is_func_before(spot, table);
    note_if(found, Rule::Names, taken, table.place);
    note_if(
        found,
        Rule::Limits,
        spot.tables.len() == MAX_TABLES,
        table.place,
    );
}

/// A declared table, and its size where it has one.
fn in_decl(spot: &Spot, found: &mut Option<Fault>, declaration: &TableDecl)
    requires { spot_of spot.now
        ≡ top Part.OfSize (tables_of_decls spot.now.decls.now) spot.now.all.now }
    ensures { found.new
        ≡ lowest_in resolved_rules found.old (in_decl spot.now.all.now
        (tables_of_decls spot.now.decls.now) declaration.now) }
{
    match declaration {
        TableDecl::Input(t) => declares_table(spot, found, t),
        TableDecl::Made(t, a, b) => {
            declares_table(spot, found, t);
            in_whole(spot, found, a);
            in_whole(spot, found, b);
        }
    }
}

/// A table behind those that are declared before it.
fn in_declared_table<'a>(
    alloc: Global,
    found: &mut Option<Fault>,
    program: &'a Program,
    funcs: &Scope<'a>,
    earlier: &'a [TableDecl],
    before: &Scope<'a>,
    declaration: &TableDecl,
)
    requires known { funcs.now ≡ func_names program.now.funcs.items }
    requires named { before.now ≡ texts (tables_of_decls earlier.now) }
    ensures { found.new
        ≡ lowest_in resolved_rules found.old (in_decl program.now.funcs.items
        (tables_of_decls earlier.now) declaration.now) }
{
    let spot = top(alloc, Part::OfSize, earlier, before, &program.funcs, funcs);
    in_decl(&spot, found, declaration);
}

/// The tables in order, each where those before it are visible. Answers their names.
fn in_decls<'a>(
    alloc: Global,
    found: &mut Option<Fault>,
    program: &'a Program,
    funcs: &Scope<'a>,
) -> Result<Scope<'a>, NoMemory>
    requires { funcs.now ≡ func_names program.now.funcs.items }
    ensures found { IfOk result (λ tables.
        found.new
        ≡ lowest_in resolved_rules found.old (in_decls program.now.funcs.items []
        program.now.tables.items)) }
    ensures names { IfOk result (λ tables. tables ≡ texts (tables_of program.now)) }
{
    let decls = program.tables.as_slice();
    let mut tables = Scope::new(alloc);
    for i in 0..decls.len() {
        let d = &decls[i];
        in_declared_table(alloc, found, program, funcs, &decls[..i], &tables, d);
        tables.declare(&d.name().text)?;
    }
    Ok(tables)
}

// Functions.

/// The declared table of that name, the first where two have it.
fn first_table<'a>(spot: &Spot<'a, '_>, name: &[u8]) -> Option<&'a Name>
    ensures { MatchOption result (first_named (tables_of_decls spot.now.decls.now) name.now ≡ None)
        (λ t. first_named (tables_of_decls spot.now.decls.now) name.now ≡ Some t.now) }
{
    match spot.tables.position(name) {
        Some(k) => {
            if k < spot.decls.len() {
                Some(spot.decls[k].name())
            } else {
                None
            }
        }
        None => None,
    }
}

/// Whether the table of that name is declared, and not after it.
fn is_table_by(spot: &Spot, name: &Name) -> bool
    ensures { result
        ≡ is_table_by (first_named (tables_of_decls spot.now.decls.now) name.now.text.items)
        name.now }
{
    match first_table(spot, &name.text) {
        Some(t) => !is_before(name.place, t.place),
        None => false,
    }
}

#[tactic(auto, using(crate::proofs::Searching::lowest_append))]
fn declares_func(spot: &Spot, found: &mut Option<Fault>, func: &Func)
    ensures { found.new
        ≡ lowest_at resolved_rules found.old (site (spot_of spot.now) (DeclaresFunc func.now)) }
{
    let taken = spot.funcs.contains(&func.name.text) || is_table_by(spot, &func.name);
    note_if(found, Rule::Names, taken, func.name.place);
    note_if(
        found,
        Rule::Limits,
        spot.funcs.len() == MAX_FUNCTIONS,
        func.name.place,
    );
    ninth_parameter(found, &func.params);
}

/// A function behind those that are declared before it.
fn in_declared_func<'a>(
    alloc: Global,
    found: &mut Option<Fault>,
    whole: &Declared<'a, '_>,
    earlier: &'a [Func],
    before: &Scope<'a>,
    func: &'a Func,
) -> Result<(), NoMemory>
    requires { before.now ≡ func_names earlier.now }
    ensures { let p = whole.now.program.now in
        IfOk result (λ u.
        found.new
        ≡ lowest_in resolved_rules found.old (site (top Part.OfFunc (tables_of p) earlier.now)
        (DeclaresFunc func.now)
        ∷ in_func p func.now)) }
{
    let declared = top(
        alloc,
        Part::OfFunc,
        &whole.program.tables,
        whole.tables,
        earlier,
        before,
    );
    declares_func(&declared, found, func);
    declares_all(alloc, found, &func.params, &func.body)?;
    let mut inside = top(
        alloc,
        Part::OfFunc,
        &whole.program.tables,
        whole.tables,
        &whole.program.funcs,
        whole.funcs,
    );
    in_func(&mut inside, found, func)
}

/// The functions in order.
fn in_funcs(alloc: Global, found: &mut Option<Fault>, whole: &Declared) -> Result<(), NoMemory>
    ensures { let p = whole.now.program.now in
        IfOk result (λ u.
        found.new ≡ lowest_in resolved_rules found.old (in_funcs p [] p.funcs.items)) }
{
    let funcs = whole.program.funcs.as_slice();
    let mut before = Scope::new(alloc);
    for i in 0..funcs.len() {
        let f = &funcs[i];
        in_declared_func(alloc, found, whole, &funcs[..i], &before, f)?;
        before.declare(&f.name.text)?;
    }
    Ok(())
}

/// The names of functions in order.
fn names_of<'a>(alloc: Global, funcs: &'a [Func]) -> Result<Scope<'a>, NoMemory>
    ensures { IfOk result (λ names. names ≡ func_names funcs.now) }
{
    let mut names = Scope::new(alloc);
    for f in funcs {
        names.declare(&f.name.text)?;
    }
    Ok(names)
}

// The whole.

fn in_main(alloc: Global, found: &mut Option<Fault>, whole: &Declared) -> Result<(), NoMemory>
    ensures { IfOk result (λ u.
        found.new ≡ lowest_in resolved_rules found.old (in_main whole.now.program.now)) }
{
    let main = whole.program.main.as_slice();
    declares_all(alloc, found, &[], main)?;
    let mut spot = top(
        alloc,
        Part::OfMain,
        &whole.program.tables,
        whole.tables,
        &whole.program.funcs,
        whole.funcs,
    );
    in_list(&mut spot, found, main)
}

/// The first broken rule of a program, where one is broken.
pub fn first_fault(alloc: Global, program: &Program) -> Result<Option<Fault>, NoMemory>
    ensures { IfOk result (λ fault. fault ≡ lowest_in resolved_rules None (sites program.now)) }
{
    let mut found = None;
    let funcs = names_of(alloc, &program.funcs)?;
    let tables = in_decls(alloc, &mut found, program, &funcs)?;
    let declared = Declared {
        program,
        tables: &tables,
        funcs: &funcs,
    };
    in_funcs(alloc, &mut found, &declared)?;
    in_main(alloc, &mut found, &declared)?;
    Ok(found)
}
