// The walk over expressions and calls.

ghost use Rattle.std.specs.Prelude.{◌≡◌, ◌∷◌, []};
ghost use Rattle.loop_rules.specs.Sites.{in_expr, in_whole, in_args, in_app, in_carries, Uses};
ghost use Rattle.loop_rules.specs.Sites.{ReadsCell, Calls};
ghost use Rattle.loop_rules.specs.Carries.{misread, bad_read};
ghost use Rattle.loop_rules.specs.Reductions.{misreduced};
ghost use Rattle.loop_rules.specs.Search.{lowest, lowest_in};
ghost use Rattle.loop_check.specs.Search.{calls_reader, reads_carried, checked_rules};
ghost use Rattle.loop_check.specs.Walk.{rounds_of, inside};

use crate::reader::Reader;
use crate::round::{Round, Test, any_round};
use crate::shape::has_shape;
use crate::spot::Spot;
use loop_rules::{Fault, Rule, note_if};
use loop_syntax::{App, Carry, Expr, Name, RowAt};

/// An occurrence of a variable that isn't the target of a `fold`.
pub fn occurs(spot: &Spot, found: &mut Option<Fault>, variable: &Name)
    ensures { found.new
        ≡ lowest found.old Rule.Reductions (misreduced (Uses variable.now) (inside spot.now)) }
{
    let reduced = any_round(spot.rounds, &Test::Reduces(&variable.text));
    note_if(found, Rule::Reductions, reduced, variable.place);
}

/// Whether a read is of a table that a loop round carries, where the nearest doesn't, or without
/// its shape.
fn bad_read(rounds: &[Round], table: &[u8], row: &Expr, column: &Expr) -> bool
    ensures { result ≡ bad_read (rounds_of rounds.now) table.now row.now column.now }
{
    match rounds.first() {
        Some(round) => any_round(rounds, &Test::Carries(table))
            && !has_shape(round, table, row, column),
        None => false,
    }
}

fn reads(spot: &Spot, found: &mut Option<Fault>, table: &Name, row: &Expr, column: &Expr)
    ensures { found.new
        ≡ lowest found.old Rule.TableReads (misread (ReadsCell table.now row.now column.now)
        (inside spot.now)) }
{
    note_if(
        found,
        Rule::TableReads,
        bad_read(spot.rounds, &table.text, row, column),
        table.place,
    );
}

/// An expression inside another one.
#[tactic(auto, using(loop_rules::proofs::Searching::lowest_in_append))]
fn in_expr(spot: &Spot, readers: &[Reader], found: &mut Option<Fault>, expression: &Expr)
    ensures { found.new
        ≡ lowest_in (checked_rules readers.now) found.old
        (in_expr (inside spot.now) expression.now) }
{
    match expression {
        Expr::Int(_, _) => {}
        Expr::Var(x) => occurs(spot, found, x),
        Expr::Cell(t, a, b) => {
            reads(spot, found, t, a, b);
            in_expr(spot, readers, found, a);
            in_expr(spot, readers, found, b);
        }
        Expr::Rows(_) => {}
        Expr::Cols(_) => {}
        Expr::Neg(a, _) => in_expr(spot, readers, found, a),
        Expr::Bin(_, _, a, b) => {
            in_expr(spot, readers, found, a);
            in_expr(spot, readers, found, b);
        }
    }
}

/// An expression that isn't inside another one.
pub fn in_whole(spot: &Spot, readers: &[Reader], found: &mut Option<Fault>, expression: &Expr)
    ensures { found.new
        ≡ lowest_in (checked_rules readers.now) found.old
        (in_whole (inside spot.now) expression.now) }
{
    in_expr(spot, readers, found, expression);
}

fn in_args(spot: &Spot, readers: &[Reader], found: &mut Option<Fault>, arguments: &[Expr])
    ensures { found.new
        ≡ lowest_in (checked_rules readers.now) found.old
        (in_args (inside spot.now) arguments.now) }
{
    for e in arguments {
        in_whole(spot, readers, found, e);
    }
}

/// Whether a function is among the readers with a table that a loop round carries.
fn reads_carried(spot: &Spot, readers: &[Reader], callee: &[u8]) -> bool
    ensures { result ≡ reads_carried readers.now callee.now (rounds_of spot.now.rounds.now) }
{
    for r in readers {
        if r.func == callee && any_round(spot.rounds, &Test::Carries(r.table)) {
            return true;
        }
    }
    false
}

fn calls(
    spot: &Spot,
    readers: &[Reader],
    found: &mut Option<Fault>,
    callee: &Name,
    arguments: usize,
)
    ensures { found.new
        ≡ lowest found.old Rule.ReadingCalls (calls_reader readers.now (Calls callee.now arguments)
        (inside spot.now)) }
{
    note_if(
        found,
        Rule::ReadingCalls,
        reads_carried(spot, readers, &callee.text),
        callee.place,
    );
}

/// A call with its arguments.
pub fn in_app(spot: &Spot, readers: &[Reader], found: &mut Option<Fault>, call: &App)
    ensures { found.new
        ≡ lowest_in (checked_rules readers.now) found.old (in_app (inside spot.now) call.now) }
{
    calls(spot, readers, found, &call.callee, call.args.len());
    in_args(spot, readers, found, &call.args);
}

fn in_carry(spot: &Spot, readers: &[Reader], found: &mut Option<Fault>, item: &Carry)
    ensures { found.new
        ≡ lowest_in (checked_rules readers.now) found.old
        (in_carries (inside spot.now) (item.now ∷ [])) }
{
    match item {
        Carry::Rows(_, _) => {}
        Carry::Cells(_, RowAt::Var(k), _) => occurs(spot, found, k),
        Carry::Cells(_, RowAt::Int(_), _) => {}
    }
}

/// The items of a carry list.
pub fn in_carries(spot: &Spot, readers: &[Reader], found: &mut Option<Fault>, carries: &[Carry])
    ensures { found.new
        ≡ lowest_in (checked_rules readers.now) found.old
        (in_carries (inside spot.now) carries.now) }
{
    for c in carries {
        in_carry(spot, readers, found, c);
    }
}
