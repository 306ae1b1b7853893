// The walk over expressions and calls.

ghost use Rattle.std.specs.Prelude.{◌≡◌, ◌∷◌, [], length, min, IsTrue, MatchOption, Option, Some};
ghost use Rattle.std.specs.Prelude.{None};
ghost use Rattle.loop_rules.specs.Names.{func_of};
ghost use Rattle.loop_rules.specs.Limits.{height, first_place, earlier};
ghost use Rattle.loop_rules.specs.Scopes.{misfits};
ghost use Rattle.loop_rules.specs.Sites.{site, in_expr, in_whole, in_args, in_app, in_carries};
ghost use Rattle.loop_rules.specs.Sites.{Uses, NamesTable, Calls, Evaluates};
ghost use Rattle.loop_rules.specs.Search.{lowest_at, lowest_in, resolved_rules};
ghost use Rattle.loop_rules.specs.Walk.{spot_of};

use crate::fault::{Fault, is_before, note, note_if};
use crate::rule::Rule;
use crate::spot::Spot;
use loop_syntax::{App, Carry, Expr, Func, Name, RowAt};
use tp_value::{MAX_EXPRESSION_HEIGHT, Place};

/// A variable is used.
pub fn uses(spot: &Spot, found: &mut Option<Fault>, variable: &Name)
    ensures { found.new
        ≡ lowest_at resolved_rules found.old (site (spot_of spot.now) (Uses variable.now)) }
{
    note_if(
        found,
        Rule::Names,
        !spot.scope.contains(&variable.text),
        variable.place,
    );
}

/// A table is named.
pub fn names_table(spot: &Spot, found: &mut Option<Fault>, table: &Name)
    ensures { found.new
        ≡ lowest_at resolved_rules found.old (site (spot_of spot.now) (NamesTable table.now)) }
{
    note_if(
        found,
        Rule::Names,
        !spot.tables.contains(&table.text),
        table.place,
    );
}

/// An expression inside another one.
#[tactic(auto, using(crate::proofs::Searching::lowest_in_append))]
fn in_expr(spot: &Spot, found: &mut Option<Fault>, expression: &Expr)
    ensures { found.new
        ≡ lowest_in resolved_rules found.old (in_expr (spot_of spot.now) expression.now) }
{
    match expression {
        Expr::Int(_, _) => {}
        Expr::Var(x) => uses(spot, found, x),
        Expr::Cell(t, a, b) => {
            names_table(spot, found, t);
            in_expr(spot, found, a);
            in_expr(spot, found, b);
        }
        Expr::Rows(t) => names_table(spot, found, t),
        Expr::Cols(t) => names_table(spot, found, t),
        Expr::Neg(a, _) => in_expr(spot, found, a),
        Expr::Bin(_, _, a, b) => {
            in_expr(spot, found, a);
            in_expr(spot, found, b);
        }
    }
}

/// One more than the greatest height: as good as any greater one.
const TOO_HIGH: u32 = MAX_EXPRESSION_HEIGHT + 1;

/// The height of an expression, or `TOO_HIGH` where it is greater.
fn height(expression: &Expr) -> u32
    ensures { result ≡ min (height expression.now) TOO_HIGH }
{
    match expression {
        Expr::Int(_, _) => 1,
        Expr::Var(_) => 1,
        Expr::Cell(_, a, b) => (height(a).max(height(b)) + 1).min(TOO_HIGH),
        Expr::Rows(_) => 1,
        Expr::Cols(_) => 1,
        Expr::Neg(a, _) => (height(a) + 1).min(TOO_HIGH),
        Expr::Bin(_, _, a, b) => (height(a).max(height(b)) + 1).min(TOO_HIGH),
    }
}

/// The first of two places.
fn earlier(place: Place, other: Place) -> Place
    ensures { result ≡ earlier place other }
{
    if is_before(other, place) {
        other
    } else {
        place
    }
}

/// The first place of an expression's nodes.
fn first_place(expression: &Expr) -> Place
    ensures { result ≡ first_place expression.now }
{
    match expression {
        Expr::Int(_, place) => *place,
        Expr::Var(x) => x.place,
        Expr::Cell(t, a, b) => earlier(earlier(t.place, first_place(a)), first_place(b)),
        Expr::Rows(t) => t.place,
        Expr::Cols(t) => t.place,
        Expr::Neg(a, place) => earlier(*place, first_place(a)),
        Expr::Bin(_, place, a, b) => earlier(earlier(*place, first_place(a)), first_place(b)),
    }
}

fn evaluates(spot: &Spot, found: &mut Option<Fault>, expression: &Expr)
    ensures { found.new
        ≡ lowest_at resolved_rules found.old (site (spot_of spot.now) (Evaluates expression.now)) }
{
    if height(expression) > MAX_EXPRESSION_HEIGHT {
        note(found, Rule::Limits, first_place(expression));
    }
}

/// An expression that isn't inside another one.
pub fn in_whole(spot: &Spot, found: &mut Option<Fault>, expression: &Expr)
    ensures { found.new
        ≡ lowest_in resolved_rules found.old (in_whole (spot_of spot.now) expression.now) }
{
    evaluates(spot, found, expression);
    in_expr(spot, found, expression);
}

fn in_args(spot: &Spot, found: &mut Option<Fault>, arguments: &[Expr])
    ensures { found.new
        ≡ lowest_in resolved_rules found.old (in_args (spot_of spot.now) arguments.now) }
{
    for e in arguments {
        in_whole(spot, found, e);
    }
}

/// The function of that name.
pub fn func_of<'a>(spot: &Spot<'a, '_>, name: &[u8]) -> Option<&'a Func>
    ensures { MatchOption result (func_of spot.now.all.now name.now ≡ None)
        (λ f. func_of spot.now.all.now name.now ≡ Some f.now) }
{
    match spot.funcs.position(name) {
        Some(k) => {
            if k < spot.all.len() {
                Some(&spot.all[k])
            } else {
                None
            }
        }
        None => None,
    }
}

fn calls(spot: &Spot, found: &mut Option<Fault>, callee: &Name, arguments: usize)
    ensures { found.new
        ≡ lowest_at resolved_rules found.old (site (spot_of spot.now) (Calls callee.now
        arguments)) }
{
    let fits = match func_of(spot, &callee.text) {
        Some(g) => g.params.len() == arguments,
        None => false,
    };
    note_if(found, Rule::Names, !fits, callee.place);
}

/// A call with its arguments.
pub fn in_app(spot: &Spot, found: &mut Option<Fault>, call: &App)
    ensures { found.new ≡ lowest_in resolved_rules found.old (in_app (spot_of spot.now) call.now) }
{
    calls(spot, found, &call.callee, call.args.len());
    in_args(spot, found, &call.args);
}

fn in_carry(spot: &Spot, found: &mut Option<Fault>, item: &Carry)
    ensures { found.new
        ≡ lowest_in resolved_rules found.old (in_carries (spot_of spot.now) (item.now ∷ [])) }
{
    match item {
        Carry::Rows(t, _) => names_table(spot, found, t),
        Carry::Cells(t, RowAt::Var(k), _) => {
            names_table(spot, found, t);
            uses(spot, found, k);
        }
        Carry::Cells(t, RowAt::Int(_), _) => names_table(spot, found, t),
    }
}

/// The items of a carry list.
pub fn in_carries(spot: &Spot, found: &mut Option<Fault>, carries: &[Carry])
    ensures { found.new
        ≡ lowest_in resolved_rules found.old (in_carries (spot_of spot.now) carries.now) }
{
    for c in carries {
        in_carry(spot, found, c);
    }
}
