// The opposite of a comparison.

ghost use Rattle.std.specs.Prelude.{◌≡◌, Box, MatchOption, None};
ghost use Rattle.std.specs.declared.alloc.Global.{Global};
ghost use Rattle.expr_lower.specs.Bodies.{literal};
ghost use Rattle.scene_laws.specs.Opposite.{IsFound, branch_blocks, of_below};
ghost use Rattle.scene_laws.specs.Opposite.{opposite};

use expr_lower::{Operation, literal};
use loop_syntax::{BinOp, Expr};

// Of `a < b` or of `a <= b`: by the first operator with the operands turned round, or by the second
// one with the operands as they are.
fn of_below<'a>(turned: BinOp, same: BinOp, parts: Operation<'a>) -> Option<Operation<'a>>
    ensures { (p q : Box (Unit {0}) Global) → MatchOption result
        (of_below turned same parts.entry.place p parts.entry.left.now q parts.entry.right.now
        (literal parts.entry.left.now) (literal parts.entry.right.now) ≡ None)
        (IsFound (of_below turned same parts.entry.place p parts.entry.left.now q
        parts.entry.right.now (literal parts.entry.left.now) (literal parts.entry.right.now))) }
{
    if literal(parts.left).is_some() {
        return Some(Operation {
            operator: turned,
            left: parts.right,
            right: parts.left,
            ..parts
        });
    }
    if literal(parts.right).is_some() {
        return None;
    }
    Some(Operation {
        operator: same,
        ..parts
    })
}

/// The opposite of an expression, where it has one.
pub fn opposite(e: &Expr) -> Option<Operation<'_>>
    ensures { MatchOption result (opposite e.now ≡ None) (IsFound (opposite e.now)) }
{
    let Expr::Bin(operator, place, left, right) = e else {
        return None;
    };
    let parts = Operation {
        operator: *operator,
        place: *place,
        left,
        right,
    };
    let other = match *operator {
        BinOp::Lt => return of_below(BinOp::Le, BinOp::Ge, parts),
        BinOp::Le => return of_below(BinOp::Lt, BinOp::Gt, parts),
        BinOp::Eq => BinOp::Ne,
        BinOp::Ne => BinOp::Eq,
        BinOp::Gt => BinOp::Le,
        BinOp::Ge => BinOp::Lt,
        BinOp::Add | BinOp::Sub | BinOp::Mul | BinOp::Div | BinOp::Rem => return None,
    };
    Some(Operation {
        operator: other,
        ..parts
    })
}

/// How many blocks the first branch of an `if` has of its own.
pub fn branch_blocks(e: &Expr) -> u32
    ensures { result ≡ branch_blocks (opposite e.now) }
{
    match opposite(e) {
        Some(_) => 0,
        None => 1,
    }
}
