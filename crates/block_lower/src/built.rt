// Which programs there is code for.

ghost use Rattle.std.specs.Prelude.{◌≡◌};
ghost use Rattle.scene_laws.specs.Built as built;

use loop_check::Checked;
use loop_syntax::{Func, Stmt};

/// Whether there is code for a statement and for those in its blocks.
#[cycle(is_built)]
fn is_built(s: &Stmt) -> bool
    ensures { result ≡ built.is_built s.now }
{
    match s {
        Stmt::Let(_, _) => true,
        Stmt::Set(_, _) => true,
        Stmt::Put(_, _, _, _) => true,
        Stmt::If(_, body, other) => list_is_built(body) && list_is_built(other),
        Stmt::While(_, body) => list_is_built(body),
        Stmt::Loop(_, _, _, body) => list_is_built(body),
        Stmt::Par(l) => list_is_built(&l.body),
        Stmt::Fold(_, _) => true,
        Stmt::Call(_, _) => true,
        Stmt::Both(_, _, _, _) => true,
        Stmt::Print(_, _) => true,
        Stmt::Emit(_, _) => true,
        Stmt::Leave(_, _) => false,
        Stmt::Fill { .. } => false,
    }
}

#[cycle(is_built)]
fn list_is_built(body: &[Stmt]) -> bool
    ensures { result ≡ built.list_is_built body.now }
{
    for s in body {
        if !is_built(s) {
            return false;
        }
    }
    true
}

fn functions_are_built(funcs: &[Func]) -> bool
    ensures { result ≡ built.functions_are_built funcs.now }
{
    for f in funcs {
        if !list_is_built(&f.body) {
            return false;
        }
    }
    true
}

/// Whether there is code for each statement of a program: there is none yet for `leave`.
pub fn program_is_built(program: &Checked) -> bool
    ensures { result ≡ built.program_is_built program.now }
{
    let program = program.program();
    functions_are_built(&program.funcs) && list_is_built(&program.main)
}
