// The walk over declarations, functions and main.

ghost use Rattle.std.specs.Prelude.{◌≡◌, ◌++◌, ◌∷◌, [], IfOk};
ghost use Rattle.loop_rules.specs.Declarations.{declared_in, declared_list};
ghost use Rattle.loop_rules.specs.Walk.{named};

use loop_syntax::{Name, Stmt};
use tp_value::NoMemory;

/// Adds the variables that a statement declares, in order.
#[cycle(declared)]
fn push_declared<'a>(names: &mut Vec<&'a Name>, statement: &'a Stmt) -> Result<(), NoMemory>
    ensures { IfOk result (λ u.
        named names.new.items ≡ named names.old.items ++ declared_in statement.now) }
{
    match statement {
        Stmt::Let(x, _) => {
            names.push(x)?;
            Ok(())
        }
        Stmt::If(_, body, other) => {
            push_all(names, body)?;
            push_all(names, other)
        }
        Stmt::While(_, body) => push_all(names, body),
        Stmt::Loop(x, _, _, body) => {
            names.push(x)?;
            push_all(names, body)
        }
        Stmt::Par(l) => {
            names.push(&l.var)?;
            push_all(names, &l.body)
        }
        Stmt::Set(_, _) => Ok(()),
        Stmt::Put(_, _, _, _) => Ok(()),
        Stmt::Fold(_, _) => Ok(()),
        Stmt::Call(_, _) => Ok(()),
        Stmt::Both(_, _, _, _) => Ok(()),
        Stmt::Print(_, _) => Ok(()),
        Stmt::Emit(_, _) => Ok(()),
        Stmt::Leave(_, _) => Ok(()),
        Stmt::Fill { .. } => Ok(()),
    }
}

/// Adds the variables that the statements of a list declare, in order.
#[cycle(declared)]
pub fn push_all<'a>(names: &mut Vec<&'a Name>, body: &'a [Stmt]) -> Result<(), NoMemory>
    ensures { IfOk result (λ u.
        named names.new.items ≡ named names.old.items ++ declared_list body.now) }
{
    for s in body {
        push_declared(names, s)?;
    }
    Ok(())
}
