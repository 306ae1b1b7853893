// How many trap blocks an expression has.

ghost use Rattle.std.specs.Prelude.{◌≡◌, min};
ghost use Rattle.expr_lower.specs.Bodies.{trap_count};

use crate::operators::{can_trap, literal};
use loop_syntax::Expr;

/// How many trap blocks an expression has, or the greatest `u32` where there are more.
pub fn trap_count(expr: &Expr) -> u32
    ensures { result ≡ min (trap_count expr.now) u32.MAX }
{
    match expr {
        Expr::Int(_, _) => 0,
        Expr::Var(_) => 0,
        Expr::Cell(_, a, b) => trap_count(a)
            .saturating_add(trap_count(b))
            .saturating_add(1),
        Expr::Rows(_) => 0,
        Expr::Cols(_) => 0,
        Expr::Neg(a, _) => trap_count(a),
        Expr::Bin(op, _, a, b) => {
            let own = if can_trap(*op, literal(b)) { 1 } else { 0 };
            trap_count(a)
                .saturating_add(trap_count(b))
                .saturating_add(own)
        }
    }
}
