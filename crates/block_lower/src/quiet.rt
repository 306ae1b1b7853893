// Where no task is cut.

ghost use Rattle.std.specs.Prelude.{◌≡◌};
ghost use Rattle.scene_laws.specs.Quiet as quiet;

use loop_syntax::{Func, Reduce, Stmt};

/// How many variables a leaf loop may reduce: there are so many registers for them.
const MAX_LEAF_ACCS: usize = 4;

/// Whether no point of promotion can be reached in a statement: it has no `par`, no `both`, and no
/// call unless `calls` says that a call reaches none.
#[cycle(is_quiet)]
fn is_quiet(s: &Stmt, calls: bool) -> bool
    ensures { result ≡ quiet.is_quiet calls s.now }
{
    match s {
        Stmt::Let(_, _) => true,
        Stmt::Set(_, _) => true,
        Stmt::Put(_, _, _, _) => true,
        Stmt::If(_, body, other) => list_is_quiet(body, calls) && list_is_quiet(other, calls),
        Stmt::While(_, body) => list_is_quiet(body, calls),
        Stmt::Loop(_, _, _, body) => list_is_quiet(body, calls),
        Stmt::Par(_) => false,
        Stmt::Fold(_, _) => true,
        Stmt::Call(_, _) => calls,
        Stmt::Both(_, _, _, _) => false,
        Stmt::Print(_, _) => true,
        Stmt::Emit(_, _) => true,
        Stmt::Leave(_, _) => true,
        Stmt::Fill { .. } => true,
    }
}

/// Whether no point of promotion can be reached in statements, such as the body of a loop.
#[cycle(is_quiet)]
pub fn list_is_quiet(body: &[Stmt], calls: bool) -> bool
    ensures { result ≡ quiet.list_is_quiet calls body.now }
{
    for s in body {
        if !is_quiet(s, calls) {
            return false;
        }
    }
    true
}

/// Whether a `par` with this body, which reduces these, is a leaf loop: its body has no `par`, no
/// `both` and no call, and there are registers for what it reduces.
pub fn is_leaf(body: &[Stmt], reduces: &[Reduce]) -> bool
    ensures { result ≡ quiet.is_leaf body.now reduces.now }
{
    reduces.len() <= MAX_LEAF_ACCS && list_is_quiet(body, false)
}

/// Whether no point of promotion can be reached in any function: none has a `par` or a `both`.
pub fn functions_are_quiet(funcs: &[Func]) -> bool
    ensures { result ≡ quiet.functions_are_quiet funcs.now }
{
    for f in funcs {
        if !list_is_quiet(&f.body, true) {
            return false;
        }
    }
    true
}
