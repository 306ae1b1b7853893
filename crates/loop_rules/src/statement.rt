// The walk over statements.

ghost use Rattle.std.specs.Prelude.{◌≡◌, ◌∷◌, ◌++◌, [], IfOk, IsTrue, cond, bytes_eq, nat_eq};
ghost use Rattle.std.specs.Prelude.{nat_le, length, map};
ghost use Rattle.loop_rules.specs.Names.{is_in, table_name};
ghost use Rattle.loop_rules.specs.Scopes.{is_visible, unseen_targets, loop_targets};
ghost use Rattle.loop_rules.specs.Keeps.{in_function, carry_word, in_par_of_main};
ghost use Rattle.loop_rules.specs.Limits.{past};
ghost use Rattle.loop_rules.specs.Sites.{site, spot_after, spot_of_list, in_stmt, in_list, in_loop};
ghost use Rattle.loop_rules.specs.Sites.{in_whole, the_loop, Declares, Assigns, Folds, AssignsBoth};
ghost use Rattle.loop_rules.specs.Sites.{WritesCell, Shows, Parallel, Leaves};
ghost use Rattle.loop_rules.specs.Search.{lowest, lowest_at, lowest_in, resolved_rules};
ghost use Rattle.loop_rules.specs.Walk.{spot_of, Walked};

use crate::expression::{in_app, in_carries, in_whole, names_table, uses};
use crate::fault::{Fault, note, note_if};
use crate::part::Part;
use crate::rule::Rule;
use crate::spot::Spot;
use loop_syntax::{App, Carry, Expr, Name, ParLoop, Reduce, Stmt};
use tp_value::{MAX_CARRIES, MAX_PAR_NESTING, MAX_REDUCTIONS, NoMemory, Place};

/// A variable is declared.
pub fn declares(spot: &Spot, found: &mut Option<Fault>, variable: &Name)
    ensures { found.new
        ≡ lowest_at resolved_rules found.old (site (spot_of spot.now) (Declares variable.now)) }
{
    let visible = spot.scope.contains(&variable.text)
        || spot.tables.contains(&variable.text)
        || spot.funcs.contains(&variable.text);
    note_if(found, Rule::Names, visible, variable.place);
}

fn assigns(spot: &Spot, found: &mut Option<Fault>, variable: &Name)
    ensures { found.new
        ≡ lowest_at resolved_rules found.old (site (spot_of spot.now) (Assigns variable.now)) }
{
    note_if(
        found,
        Rule::Names,
        !spot.scope.contains(&variable.text),
        variable.place,
    );
    note_if(
        found,
        Rule::LoopVariables,
        spot.loops.contains(&variable.text),
        variable.place,
    );
}

// A fold is an assignment to these rules.
fn folds(spot: &Spot, found: &mut Option<Fault>, variable: &Name)
    ensures { found.new
        ≡ lowest_at resolved_rules found.old (site (spot_of spot.now) (Folds variable.now)) }
{
    assigns(spot, found, variable);
}

fn assigns_both(spot: &Spot, found: &mut Option<Fault>, first: &Name, second: &Name)
    ensures { found.new
        ≡ lowest_at resolved_rules found.old (site (spot_of spot.now) (AssignsBoth first.now
        second.now)) }
{
    note_if(
        found,
        Rule::Names,
        first.text.as_slice() == second.text.as_slice(),
        second.place,
    );
}

// The target of a `leave` is used, to these rules.
fn leaves(spot: &Spot, found: &mut Option<Fault>, target: &Name)
    ensures { found.new
        ≡ lowest_at resolved_rules found.old (site (spot_of spot.now) (Leaves target.now)) }
{
    uses(spot, found, target);
}

// A place that may not stand in a function.
fn not_in_function(part: Part, found: &mut Option<Fault>, place: Place)
    ensures { found.new ≡ lowest found.old Rule.Functions (in_function part place) }
{
    match part {
        Part::OfSize => {}
        Part::OfFunc => note(found, Rule::Functions, place),
        Part::OfMain => {}
    }
}

// A place that may not stand inside a `par` of main.
fn not_in_par(part: Part, rounds: &[Place], found: &mut Option<Fault>, place: Place)
    ensures { found.new
        ≡ lowest found.old Rule.Output (in_par_of_main part (length rounds.now) place) }
{
    match part {
        Part::OfSize => {}
        Part::OfFunc => {}
        Part::OfMain => {
            if !rounds.is_empty() {
                note(found, Rule::Output, place);
            }
        }
    }
}

fn shows(spot: &Spot, found: &mut Option<Fault>, place: Place)
    ensures { found.new
        ≡ lowest_at resolved_rules found.old (site (spot_of spot.now) (Shows place)) }
{
    not_in_function(spot.part, found, place);
    not_in_par(spot.part, &spot.rounds, found, place);
}

// The clauses of a `par`.

fn unseen_targets(spot: &Spot, found: &mut Option<Fault>, reduces: &[Reduce])
    ensures { found.new ≡ lowest found.old Rule.Names (unseen_targets spot.now.scope reduces.now) }
{
    for r in reduces {
        note_if(
            found,
            Rule::Names,
            !spot.scope.contains(&r.target.text),
            r.target.place,
        );
    }
}

fn loop_targets(spot: &Spot, found: &mut Option<Fault>, reduces: &[Reduce])
    ensures { found.new
        ≡ lowest found.old Rule.LoopVariables (loop_targets (spot_of spot.now).loops reduces.now) }
{
    for r in reduces {
        note_if(
            found,
            Rule::LoopVariables,
            spot.loops.contains(&r.target.text),
            r.target.place,
        );
    }
}

fn not_carried(part: Part, found: &mut Option<Fault>, place: Place, carries: &[Carry])
    ensures { found.new ≡ lowest found.old Rule.Functions (carry_word part place carries.now) }
{
    if !carries.is_empty() {
        not_in_function(part, found, place);
    }
}

fn ninth_reduction(found: &mut Option<Fault>, reduces: &[Reduce])
    ensures { found.new
        ≡ lowest found.old Rule.Limits (past MAX_REDUCTIONS (map (λ d. d.target) reduces.now)) }
{
    if reduces.len() > MAX_REDUCTIONS {
        note(found, Rule::Limits, reduces[MAX_REDUCTIONS].target.place);
    }
}

fn fifth_carry(found: &mut Option<Fault>, carries: &[Carry])
    ensures { found.new
        ≡ lowest found.old Rule.Limits (past MAX_CARRIES (map table_name carries.now)) }
{
    if carries.len() > MAX_CARRIES {
        note(found, Rule::Limits, carries[MAX_CARRIES].table().place);
    }
}

fn too_deep(rounds: &[Place], found: &mut Option<Fault>, place: Place)
    ensures { found.new
        ≡ lowest found.old Rule.Limits (cond (nat_le MAX_PAR_NESTING (length rounds.now))
        (place ∷ []) []) }
{
    note_if(
        found,
        Rule::Limits,
        rounds.len() >= MAX_PAR_NESTING as usize,
        place,
    );
}

fn parallel(spot: &Spot, found: &mut Option<Fault>, par: &ParLoop)
    ensures { let s = spot_of spot.now in found.new
        ≡ lowest_at resolved_rules found.old (site s (Parallel par.now.place par.now.carry_place
        (the_loop s par.now.var
        par.now.carries.items par.now.reduces.items))) }
{
    unseen_targets(spot, found, &par.reduces);
    not_carried(spot.part, found, par.carry_place, &par.carries);
    loop_targets(spot, found, &par.reduces);
    too_deep(&spot.rounds, found, par.place);
    ninth_reduction(found, &par.reduces);
    fifth_carry(found, &par.carries);
}

fn writes(spot: &Spot, found: &mut Option<Fault>, table: &Name, row: &Expr, column: &Expr)
    ensures { found.new
        ≡ lowest_at resolved_rules found.old (site (spot_of spot.now) (WritesCell table.now row.now
        column.now)) }
{
    not_in_function(spot.part, found, table.place);
}

// Statements without blocks.

fn in_put(
    spot: &Spot,
    found: &mut Option<Fault>,
    table: &Name,
    row: &Expr,
    column: &Expr,
    value: &Expr,
)
    ensures { found.new
        ≡ lowest_in resolved_rules found.old (in_stmt (spot_of spot.now) (Stmt.Put table.now row.now
        column.now
        value.now)) }
{
    names_table(spot, found, table);
    writes(spot, found, table, row, column);
    in_whole(spot, found, row);
    in_whole(spot, found, column);
    in_whole(spot, found, value);
}

fn in_both(
    spot: &Spot,
    found: &mut Option<Fault>,
    first: &Name,
    first_call: &App,
    second: &Name,
    second_call: &App,
)
    ensures { found.new
        ≡ lowest_in resolved_rules found.old (in_stmt (spot_of spot.now) (Stmt.Both first.now
        first_call.now second.now
        second_call.now)) }
{
    assigns(spot, found, first);
    in_app(spot, found, first_call);
    assigns(spot, found, second);
    assigns_both(spot, found, first, second);
    in_app(spot, found, second_call);
}

/// The two bounds of a loop over x.
fn in_bounds(spot: &Spot, found: &mut Option<Fault>, variable: &Name, from: &Expr, to: &Expr)
    ensures { let s = spot_of spot.now in found.new
        ≡ lowest_in resolved_rules found.old (site s (Declares variable.now) ∷ in_whole s from.now
        ++ in_whole s to.now) }
{
    declares(spot, found, variable);
    in_whole(spot, found, from);
    in_whole(spot, found, to);
}

#[cycle(walk)]
fn in_stmt<'a>(
    spot: &mut Spot<'a, '_>,
    found: &mut Option<Fault>,
    statement: &'a Stmt,
) -> Result<(), NoMemory>
    ensures { IfOk result (λ u.
        Walked found.old found.new (in_stmt (spot_of spot.old) statement.now) spot.new
        (spot_after (spot_of spot.old) statement.now)) }
{
    match statement {
        Stmt::Let(x, e) => {
            declares(spot, found, x);
            in_whole(spot, found, e);
            spot.scope.declare(&x.text)
        }
        Stmt::Set(x, e) => {
            assigns(spot, found, x);
            in_whole(spot, found, e);
            Ok(())
        }
        Stmt::Put(t, a, b, e) => {
            in_put(spot, found, t, a, b, e);
            Ok(())
        }
        Stmt::If(e, body, other) => {
            in_whole(spot, found, e);
            in_block(spot, found, body)?;
            in_block(spot, found, other)
        }
        Stmt::While(e, body) => {
            in_whole(spot, found, e);
            in_block(spot, found, body)
        }
        Stmt::Loop(x, a, b, body) => {
            in_bounds(spot, found, x, a, b);
            in_loop(spot, found, body, x)
        }
        Stmt::Par(l) => in_par(spot, found, l),
        Stmt::Fold(x, e) => {
            folds(spot, found, x);
            in_whole(spot, found, e);
            Ok(())
        }
        Stmt::Call(x, f) => {
            assigns(spot, found, x);
            in_app(spot, found, f);
            Ok(())
        }
        Stmt::Both(x, f, y, g) => {
            in_both(spot, found, x, f, y, g);
            Ok(())
        }
        Stmt::Print(place, e) => {
            shows(spot, found, *place);
            in_whole(spot, found, e);
            Ok(())
        }
        Stmt::Emit(place, t) => {
            shows(spot, found, *place);
            names_table(spot, found, t);
            Ok(())
        }
        Stmt::Leave(x, e) => {
            leaves(spot, found, x);
            in_whole(spot, found, e);
            Ok(())
        }
        Stmt::Fill { .. } => Ok(()),
    }
}

/// The statements of a list in order.
#[cycle(walk)]
pub fn in_list<'a>(
    spot: &mut Spot<'a, '_>,
    found: &mut Option<Fault>,
    body: &'a [Stmt],
) -> Result<(), NoMemory>
    ensures { IfOk result (λ u.
        Walked found.old found.new (in_list (spot_of spot.old) body.now) spot.new
        (spot_of_list (spot_of spot.old) body.now)) }
{
    for s in body {
        in_stmt(spot, found, s)?;
    }
    Ok(())
}

/// A block, whose variables are visible in it alone.
#[cycle(walk)]
fn in_block<'a>(
    spot: &mut Spot<'a, '_>,
    found: &mut Option<Fault>,
    body: &'a [Stmt],
) -> Result<(), NoMemory>
    ensures { IfOk result (λ u.
        Walked found.old found.new (in_list (spot_of spot.old) body.now) spot.new
        (spot_of spot.old)) }
{
    let n = spot.scope.len();
    in_list(spot, found, body)?;
    spot.scope.leave(n);
    Ok(())
}

/// The body of a loop over x.
#[cycle(walk)]
fn in_loop<'a>(
    spot: &mut Spot<'a, '_>,
    found: &mut Option<Fault>,
    body: &'a [Stmt],
    variable: &'a Name,
) -> Result<(), NoMemory>
    ensures { IfOk result (λ u.
        Walked found.old found.new (in_list (in_loop (spot_of spot.old) variable.now) body.now)
        spot.new
        (spot_of spot.old)) }
{
    let (n, m) = (spot.scope.len(), spot.loops.len());
    spot.scope.declare(&variable.text)?;
    spot.loops.declare(&variable.text)?;
    in_list(spot, found, body)?;
    spot.scope.leave(n);
    spot.loops.leave(m);
    Ok(())
}

/// A `par`.
#[cycle(walk)]
fn in_par<'a>(
    spot: &mut Spot<'a, '_>,
    found: &mut Option<Fault>,
    par: &'a ParLoop,
) -> Result<(), NoMemory>
    ensures { IfOk result (λ u.
        Walked found.old found.new (in_stmt (spot_of spot.old) (Stmt.Par par.now)) spot.new
        (spot_of spot.old)) }
{
    parallel(spot, found, par);
    in_bounds(spot, found, &par.var, &par.from, &par.to);
    in_carries(spot, found, &par.carries);
    spot.rounds.push(par.place)?;
    in_loop(spot, found, &par.body, &par.var)?;
    spot.rounds.pop();
    Ok(())
}
