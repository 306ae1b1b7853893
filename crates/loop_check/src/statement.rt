// The walk over statements.

ghost use Rattle.std.specs.Prelude.{◌≡◌, ◌∷◌, ◌++◌, IfOk, IsTrue};
ghost use Rattle.loop_rules.specs.Carries.{miswritten, bad_write};
ghost use Rattle.loop_rules.specs.Reductions.{outer_set, misreduced};
ghost use Rattle.loop_rules.specs.Sites.{site, spot_after, spot_of_list, in_stmt, in_list};
ghost use Rattle.loop_rules.specs.Sites.{in_whole, in_loop, Assigns, Folds};
ghost use Rattle.loop_rules.specs.Sites.{Declares, WritesCell};
ghost use Rattle.loop_rules.specs.Search.{lowest, lowest_in};
ghost use Rattle.loop_check.specs.Search.{checked_rules};
ghost use Rattle.loop_check.specs.Walk.{rounds_of, inside, Walked};

use crate::clauses::parallel;
use crate::expression::{in_app, in_carries, in_whole, occurs};
use crate::leaves::{all_leave, leaves};
use crate::reader::Reader;
use crate::round::{Round, Test, any_round, nearest};
use crate::shape::has_shape;
use crate::spot::Spot;
use loop_rules::{Fault, Rule, note_if};
use loop_syntax::{App, Expr, Name, ParLoop, Stmt};
use std::alloc::Global;
use tp_value::NoMemory;

fn assigns(spot: &Spot, found: &mut Option<Fault>, variable: &Name)
    ensures { found.new
        ≡ lowest (lowest found.old Rule.OuterVariables (outer_set (Assigns variable.now)
        (inside spot.now)))
        Rule.Reductions
        (misreduced (Assigns variable.now) (inside spot.now)) }
{
    let outside = any_round(spot.rounds, &Test::Outside(&variable.text));
    note_if(found, Rule::OuterVariables, outside, variable.place);
    let reduced = any_round(spot.rounds, &Test::Reduces(&variable.text));
    note_if(found, Rule::Reductions, reduced, variable.place);
}

fn folds(spot: &Spot, found: &mut Option<Fault>, variable: &Name)
    ensures { found.new
        ≡ lowest found.old Rule.Reductions (misreduced (Folds variable.now) (inside spot.now)) }
{
    let reduced = nearest(spot.rounds, &Test::Reduces(&variable.text));
    note_if(found, Rule::Reductions, !reduced, variable.place);
}

/// Whether a write is inside loops that don't all carry the table, or without the nearest one's
/// shape.
fn bad_write(rounds: &[Round], table: &[u8], row: &Expr, column: &Expr) -> bool
    ensures { result ≡ bad_write (rounds_of rounds.now) table.now row.now column.now }
{
    match rounds.first() {
        Some(round) => any_round(rounds, &Test::Lacks(table))
            || !has_shape(round, table, row, column),
        None => false,
    }
}

fn writes(spot: &Spot, found: &mut Option<Fault>, table: &Name, row: &Expr, column: &Expr)
    ensures { found.new
        ≡ lowest found.old Rule.TableWrites (miswritten (WritesCell table.now row.now column.now)
        (inside spot.now)) }
{
    note_if(
        found,
        Rule::TableWrites,
        bad_write(spot.rounds, &table.text, row, column),
        table.place,
    );
}

// Statements without blocks.

fn in_put(
    spot: &Spot,
    readers: &[Reader],
    found: &mut Option<Fault>,
    table: &Name,
    row: &Expr,
    column: &Expr,
    value: &Expr,
)
    ensures { found.new
        ≡ lowest_in (checked_rules readers.now) found.old
        (in_stmt (inside spot.now) (Stmt.Put table.now row.now column.now value.now)) }
{
    writes(spot, found, table, row, column);
    in_whole(spot, readers, found, row);
    in_whole(spot, readers, found, column);
    in_whole(spot, readers, found, value);
}

fn in_both(
    spot: &Spot,
    readers: &[Reader],
    found: &mut Option<Fault>,
    first: &Name,
    first_call: &App,
    second: &Name,
    second_call: &App,
)
    ensures { found.new
        ≡ lowest_in (checked_rules readers.now) found.old
        (in_stmt (inside spot.now) (Stmt.Both first.now first_call.now second.now
        second_call.now)) }
{
    assigns(spot, found, first);
    in_app(spot, readers, found, first_call);
    assigns(spot, found, second);
    in_app(spot, readers, found, second_call);
}

/// The two bounds of a loop over x.
fn in_bounds(
    spot: &Spot,
    readers: &[Reader],
    found: &mut Option<Fault>,
    variable: &Name,
    from: &Expr,
    to: &Expr,
)
    ensures { let s = inside spot.now in found.new
        ≡ lowest_in (checked_rules readers.now) found.old
        (site s (Declares variable.now) ∷ in_whole s from.now ++ in_whole s to.now) }
{
    occurs(spot, found, variable);
    in_whole(spot, readers, found, from);
    in_whole(spot, readers, found, to);
}

#[cycle(walk)]
fn in_stmt<'a>(
    alloc: Global,
    spot: &mut Spot<'a, '_>,
    readers: &[Reader],
    found: &mut Option<Fault>,
    statement: &'a Stmt,
) -> Result<(), NoMemory>
    ensures { IfOk result
        (λ u.
        Walked readers.now found.old found.new (in_stmt (inside spot.old) statement.now)
        spot.new
        (spot_after (inside spot.old) statement.now)) }
{
    match statement {
        Stmt::Let(x, e) => {
            occurs(spot, found, x);
            in_whole(spot, readers, found, e);
            spot.scope.push(&x.text)?;
            Ok(())
        }
        Stmt::Set(x, e) => {
            assigns(spot, found, x);
            in_whole(spot, readers, found, e);
            Ok(())
        }
        Stmt::Put(t, a, b, e) => {
            in_put(spot, readers, found, t, a, b, e);
            Ok(())
        }
        Stmt::If(e, body, other) => {
            in_whole(spot, readers, found, e);
            in_block(alloc, spot, readers, found, body)?;
            in_block(alloc, spot, readers, found, other)
        }
        Stmt::While(e, body) => {
            in_whole(spot, readers, found, e);
            in_block(alloc, spot, readers, found, body)
        }
        Stmt::Loop(x, a, b, body) => {
            in_bounds(spot, readers, found, x, a, b);
            in_loop(alloc, spot, readers, found, body, x)
        }
        Stmt::Par(l) => in_par(alloc, spot, readers, found, l),
        Stmt::Fold(x, e) => {
            folds(spot, found, x);
            in_whole(spot, readers, found, e);
            Ok(())
        }
        Stmt::Call(x, f) => {
            assigns(spot, found, x);
            in_app(spot, readers, found, f);
            Ok(())
        }
        Stmt::Both(x, f, y, g) => {
            in_both(spot, readers, found, x, f, y, g);
            Ok(())
        }
        Stmt::Print(_, e) => {
            in_whole(spot, readers, found, e);
            Ok(())
        }
        Stmt::Emit(_, _) => Ok(()),
        Stmt::Leave(x, e) => {
            leaves(spot, found, x);
            in_whole(spot, readers, found, e);
            Ok(())
        }
        Stmt::Fill { .. } => Ok(()),
    }
}

/// The statements of a list in order.
#[cycle(walk)]
pub fn in_list<'a>(
    alloc: Global,
    spot: &mut Spot<'a, '_>,
    readers: &[Reader],
    found: &mut Option<Fault>,
    body: &'a [Stmt],
) -> Result<(), NoMemory>
    ensures { IfOk result
        (λ u. Walked readers.now found.old found.new (in_list (inside spot.old) body.now) spot.new
        (spot_of_list (inside spot.old) body.now)) }
{
    for s in body {
        in_stmt(alloc, spot, readers, found, s)?;
    }
    Ok(())
}

/// A block, whose variables are visible in it alone.
#[cycle(walk)]
fn in_block<'a>(
    alloc: Global,
    spot: &mut Spot<'a, '_>,
    readers: &[Reader],
    found: &mut Option<Fault>,
    body: &'a [Stmt],
) -> Result<(), NoMemory>
    ensures { IfOk result
        (λ u. Walked readers.now found.old found.new (in_list (inside spot.old) body.now) spot.new
        (inside spot.old)) }
{
    let n = spot.scope.len();
    in_list(alloc, spot, readers, found, body)?;
    spot.scope.truncate(n);
    Ok(())
}

/// The body of a loop over x.
#[cycle(walk)]
fn in_loop<'a>(
    alloc: Global,
    spot: &mut Spot<'a, '_>,
    readers: &[Reader],
    found: &mut Option<Fault>,
    body: &'a [Stmt],
    variable: &'a Name,
) -> Result<(), NoMemory>
    ensures { IfOk result
        (λ u. Walked readers.now found.old found.new
        (in_list (in_loop (inside spot.old) variable.now) body.now) spot.new
        (inside spot.old)) }
{
    let (n, m) = (spot.scope.len(), spot.loops.len());
    spot.scope.push(&variable.text)?;
    spot.loops.push(&variable.text)?;
    in_list(alloc, spot, readers, found, body)?;
    spot.scope.truncate(n);
    spot.loops.truncate(m);
    Ok(())
}

/// The loops round the body of a `par`: itself, and those round it.
fn with_round<'b>(
    alloc: Global,
    round: Round<'b>,
    rounds: &[Round<'b>],
) -> Result<Vec<Round<'b>>, NoMemory>
    ensures { IfOk result (λ all. all.items ≡ round.entry ∷ rounds.now) }
{
    let mut all = Vec::new(alloc);
    all.push(round)?;
    for r in rounds {
        all.push(*r)?;
    }
    Ok(all)
}

/// Variables once more.
fn copied<'a>(alloc: Global, names: &[&'a [u8]]) -> Result<Vec<&'a [u8]>, NoMemory>
    ensures { IfOk result (λ all. all.items ≡ names.now) }
{
    Ok(names.to_vec(alloc)?)
}

/// The body of a `par`, where these loops are round it.
#[cycle(walk)]
fn in_body<'a>(
    alloc: Global,
    spot: &Spot<'a, '_>,
    rounds: &[Round],
    readers: &[Reader],
    found: &mut Option<Fault>,
    par_loop: &'a ParLoop,
) -> Result<(), NoMemory>
    ensures { IfOk result
        (λ u. found.new
        ≡ lowest_in (checked_rules readers.now) found.old
        (in_list
        (in_loop (record (inside spot.now) { rounds = rounds_of rounds.now }) par_loop.now.var)
        par_loop.now.body.items)) }
{
    let mut w = Spot {
        scope: copied(alloc, &spot.scope)?,
        loops: copied(alloc, &spot.loops)?,
        rounds: &*rounds,
    };
    in_loop(alloc, &mut w, readers, found, &par_loop.body, &par_loop.var)
}

/// A `par`.
#[cycle(walk)]
fn in_par<'a>(
    alloc: Global,
    spot: &Spot<'a, '_>,
    readers: &[Reader],
    found: &mut Option<Fault>,
    par_loop: &'a ParLoop,
) -> Result<(), NoMemory>
    ensures { IfOk result
        (λ u.
        found.new
        ≡ lowest_in (checked_rules readers.now) found.old
        (in_stmt (inside spot.now) (Stmt.Par par_loop.now))) }
{
    let round = Round {
        outside: spot.scope.as_slice(),
        par: par_loop,
    };
    parallel(spot, found, &round);
    all_leave(alloc, spot, found, par_loop)?;
    in_bounds(
        spot,
        readers,
        found,
        &par_loop.var,
        &par_loop.from,
        &par_loop.to,
    );
    in_carries(spot, readers, found, &par_loop.carries);
    let rounds = with_round(alloc, round, spot.rounds)?;
    in_body(alloc, spot, &rounds, readers, found, par_loop)
}
