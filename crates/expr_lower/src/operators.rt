// The instructions of an operator, behind those of its left operand.

ghost use Rattle.std.specs.Prelude.{◌≡◌, ◌≤◌, ◌+◌, ◌++◌, ◌∷◌, [], OnOk, IfSome};
ghost use Rattle.expr_lower.specs.Registers.{last_left};
ghost use Rattle.loop_meaning.specs.InRange.{InRange};
ghost use Rattle.expr_lower.specs.Bodies.{literal, may_be_zero, can_trap, calculation, turned};
ghost use Rattle.expr_lower.specs.Bodies.{tested_division, division, negation, operation};

use crate::registers::{LAST_LEFT, Places};
use loop_syntax::{BinOp, Expr};
use tp_value::NoMemory;
use tpal_syntax::{Alu, Instr, Value};

/// The number that an expression is, where it is a literal.
pub fn literal(expr: &Expr) -> Option<i64>
    ensures number { result ≡ literal expr.now }
    ensures in_range { IfSome result (λ number. InRange number) }
{
    match expr {
        Expr::Int(number, _) => Some(*number),
        Expr::Var(_)
        | Expr::Cell(_, _, _)
        | Expr::Rows(_)
        | Expr::Cols(_)
        | Expr::Neg(_, _)
        | Expr::Bin(_, _, _, _) => None,
    }
}

fn may_be_zero(divisor: Option<i64>) -> bool
    ensures { result ≡ may_be_zero divisor }
{
    match divisor {
        Some(number) => number == 0,
        None => true,
    }
}

/// Whether an operator with this right operand can trap.
pub fn can_trap(op: BinOp, right: Option<i64>) -> bool
    ensures { result ≡ can_trap op right }
{
    match op {
        BinOp::Div | BinOp::Rem => may_be_zero(right),
        BinOp::Add
        | BinOp::Sub
        | BinOp::Mul
        | BinOp::Eq
        | BinOp::Ne
        | BinOp::Lt
        | BinOp::Le
        | BinOp::Gt
        | BinOp::Ge => false,
    }
}

// Appends the calculation with a number, or with the right operand behind its instructions.
fn push_calculation(
    body: &mut Vec<Instr>,
    alu: Alu,
    at: Places,
    right: &[Instr],
    number: Option<i64>,
) -> Result<(), NoMemory>
    ensures { OnOk result
        (body.new.items
        ≡ body.old.items ++ calculation alu at.to at.left at.right right.now number) }
{
    match number {
        Some(n) => body.push(Instr::Calc {
            to: at.to,
            left: at.left,
            alu,
            right: Value::Int(n),
        })?,
        None => {
            body.extend_from_slice(right)?;
            body.push(Instr::Calc {
                to: at.to,
                left: at.left,
                alu,
                right: Value::Reg(at.right),
            })?;
        }
    }
    Ok(())
}

// Appends the calculation with the operands in turn.
fn push_turned(body: &mut Vec<Instr>, alu: Alu, at: Places, right: &[Instr]) -> Result<(), NoMemory>
    ensures { OnOk result
        (body.new.items ≡ body.old.items ++ turned alu at.to at.left at.right right.now) }
{
    body.extend_from_slice(right)?;
    body.push(Instr::Calc {
        to: at.to,
        left: at.right,
        alu,
        right: Value::Reg(at.left),
    })?;
    Ok(())
}

/// Appends the negation of the number in a register, its product with -1.
pub fn push_negation(body: &mut Vec<Instr>, to: u8, left: u8) -> Result<(), NoMemory>
    ensures { OnOk result (body.new.items ≡ body.old.items ++ negation to left) }
{
    body.push(Instr::Calc {
        to,
        left,
        alu: Alu::Mul,
        right: Value::Int(-1),
    })?;
    Ok(())
}

// Appends a test of the divisor, and the division.
fn push_tested_division(
    body: &mut Vec<Instr>,
    alu: Alu,
    at: Places,
    right: &[Instr],
    trap: u32,
) -> Result<(), NoMemory>
    requires { at.to ≤ last_left }
    ensures { OnOk result (body.new.items
        ≡ body.old.items ++ tested_division alu at.to at.left at.right right.now trap) }
{
    body.extend_from_slice(right)?;
    let test = if at.to < LAST_LEFT {
        at.to + 2
    } else {
        at.to + 1
    };
    body.push(Instr::Calc {
        to: test,
        left: at.right,
        alu: Alu::Eq,
        right: Value::Int(0),
    })?;
    body.push(Instr::IfJump { test, label: trap })?;
    if at.to >= LAST_LEFT {
        body.extend_from_slice(right)?;
    }
    body.push(Instr::Calc {
        to: at.to,
        left: at.left,
        alu,
        right: Value::Reg(at.right),
    })?;
    Ok(())
}

fn push_division(
    body: &mut Vec<Instr>,
    alu: Alu,
    at: Places,
    right: &[Instr],
    number: Option<i64>,
    trap: u32,
) -> Result<(), NoMemory>
    requires { at.to ≤ last_left }
    ensures { OnOk result (body.new.items
        ≡ body.old.items ++ division alu at.to at.left at.right right.now number trap) }
{
    match number {
        Some(0) => {
            body.push(Instr::Move {
                to: at.to,
                value: Value::Int(1),
            })?;
            body.push(Instr::IfJump {
                test: at.to,
                label: trap,
            })?;
            Ok(())
        }
        Some(n) => {
            body.push(Instr::Calc {
                to: at.to,
                left: at.left,
                alu,
                right: Value::Int(n),
            })?;
            Ok(())
        }
        None => push_tested_division(body, alu, at, right, trap),
    }
}

/// Appends the instructions of an operator. Those of its right operand, behind which it stands in
/// its register, and its number where it is a literal, are given.
pub fn push_operation(
    body: &mut Vec<Instr>,
    op: BinOp,
    at: Places,
    right: &[Instr],
    number: Option<i64>,
    trap: u32,
) -> Result<(), NoMemory>
    requires { at.to ≤ last_left }
    ensures { OnOk result (body.new.items
        ≡ body.old.items ++ operation op at.to at.left at.right right.now number trap) }
{
    match op {
        BinOp::Add => push_calculation(body, Alu::Add, at, right, number),
        BinOp::Sub => push_calculation(body, Alu::Sub, at, right, number),
        BinOp::Mul => push_calculation(body, Alu::Mul, at, right, number),
        BinOp::Div => push_division(body, Alu::Div, at, right, number, trap),
        BinOp::Rem => push_division(body, Alu::Rem, at, right, number, trap),
        BinOp::Eq => push_calculation(body, Alu::Eq, at, right, number),
        BinOp::Ne => push_calculation(body, Alu::Ne, at, right, number),
        BinOp::Lt => push_calculation(body, Alu::Lt, at, right, number),
        BinOp::Le => push_calculation(body, Alu::Le, at, right, number),
        BinOp::Gt => push_turned(body, Alu::Lt, at, right),
        BinOp::Ge => push_turned(body, Alu::Le, at, right),
    }
}
