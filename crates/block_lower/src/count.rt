// How many blocks the code of a program may have, summed over its tree. A sum stands still at the
// greatest number of its type.

ghost use Rattle.std.specs.Prelude.{◌≡◌, ◌+◌, min};
ghost use Rattle.std.specs.List.{sum_by};
ghost use Rattle.scene_laws.specs.Count.{blocks_of_expr, blocks_of_exprs, blocks, blocks_of_list};
ghost use Rattle.scene_laws.specs.Count.{blocks_of_func, blocks_of_decl, blocks_of_program};

use loop_check::Checked;
use loop_syntax::{Expr, Func, Stmt, TableDecl};

/// Blocks for each `par` and each `both`.
const FOR_PARALLEL: u64 = 64;

/// Blocks for each other statement.
const FOR_STATEMENT: u64 = 16;

/// Blocks for each node of an expression.
const FOR_NODE: u64 = 8;

/// Blocks for main, for each function and for each table.
const FOR_PART: u64 = 8;

/// The blocks for the nodes of an expression.
fn in_expr(e: &Expr) -> u64
    ensures { result ≡ min (blocks_of_expr e.now) u64.MAX }
{
    match e {
        Expr::Int(_, _) => FOR_NODE,
        Expr::Var(_) => FOR_NODE,
        Expr::Cell(_, a, b) => FOR_NODE
            .saturating_add(in_expr(a))
            .saturating_add(in_expr(b)),
        Expr::Rows(_) => FOR_NODE,
        Expr::Cols(_) => FOR_NODE,
        Expr::Neg(a, _) => FOR_NODE.saturating_add(in_expr(a)),
        Expr::Bin(_, _, a, b) => FOR_NODE
            .saturating_add(in_expr(a))
            .saturating_add(in_expr(b)),
    }
}

fn in_two(a: &Expr, b: &Expr) -> u64
    ensures { result ≡ min (blocks_of_expr a.now + blocks_of_expr b.now) u64.MAX }
{
    in_expr(a).saturating_add(in_expr(b))
}

fn in_exprs(es: &[Expr]) -> u64
    ensures { result ≡ min (blocks_of_exprs es.now) u64.MAX }
{
    let mut sum: u64 = 0;
    for e in es {
        sum = sum.saturating_add(in_expr(e));
    }
    sum
}

#[cycle(count)]
fn in_stmt(s: &Stmt) -> u64
    ensures { result ≡ min (blocks s.now) u64.MAX }
{
    match s {
        Stmt::Let(_, e) => FOR_STATEMENT.saturating_add(in_expr(e)),
        Stmt::Set(_, e) => FOR_STATEMENT.saturating_add(in_expr(e)),
        Stmt::Put(_, a, b, e) => FOR_STATEMENT
            .saturating_add(in_two(a, b))
            .saturating_add(in_expr(e)),
        Stmt::If(e, body, other) => FOR_STATEMENT
            .saturating_add(in_expr(e))
            .saturating_add(in_list(body))
            .saturating_add(in_list(other)),
        Stmt::While(e, body) => FOR_STATEMENT
            .saturating_add(in_expr(e))
            .saturating_add(in_list(body)),
        Stmt::Loop(_, a, b, body) => FOR_STATEMENT
            .saturating_add(in_two(a, b))
            .saturating_add(in_list(body)),
        Stmt::Par(l) => FOR_PARALLEL
            .saturating_add(in_two(&l.from, &l.to))
            .saturating_add(in_list(&l.body)),
        Stmt::Fold(_, e) => FOR_STATEMENT.saturating_add(in_expr(e)),
        Stmt::Call(_, f) => FOR_STATEMENT.saturating_add(in_exprs(&f.args)),
        Stmt::Both(_, f, _, g) => FOR_PARALLEL
            .saturating_add(in_exprs(&f.args))
            .saturating_add(in_exprs(&g.args)),
        Stmt::Print(_, e) => FOR_STATEMENT.saturating_add(in_expr(e)),
        Stmt::Emit(_, _) => FOR_STATEMENT,
        Stmt::Leave(_, e) => FOR_STATEMENT.saturating_add(in_expr(e)),
        Stmt::Fill { args, .. } => FOR_STATEMENT.saturating_add(in_exprs(args)),
    }
}

#[cycle(count)]
fn in_list(body: &[Stmt]) -> u64
    ensures { result ≡ min (blocks_of_list body.now) u64.MAX }
{
    let mut sum: u64 = 0;
    for s in body {
        sum = sum.saturating_add(in_stmt(s));
    }
    sum
}

fn in_func(f: &Func) -> u64
    ensures { result ≡ min (blocks_of_func f.now) u64.MAX }
{
    FOR_PART
        .saturating_add(in_list(&f.body))
        .saturating_add(in_expr(&f.result))
}

fn in_funcs(fs: &[Func]) -> u64
    ensures { result ≡ min (sum_by blocks_of_func fs.now) u64.MAX }
{
    let mut sum: u64 = 0;
    for f in fs {
        sum = sum.saturating_add(in_func(f));
    }
    sum
}

fn in_decl(d: &TableDecl) -> u64
    ensures { result ≡ min (blocks_of_decl d.now) u64.MAX }
{
    match d {
        TableDecl::Input(_) => FOR_PART,
        TableDecl::Made(_, a, b) => FOR_PART.saturating_add(in_two(a, b)),
    }
}

fn in_decls(ds: &[TableDecl]) -> u64
    ensures { result ≡ min (sum_by blocks_of_decl ds.now) u64.MAX }
{
    let mut sum: u64 = 0;
    for d in ds {
        sum = sum.saturating_add(in_decl(d));
    }
    sum
}

/// The number of blocks that the code of a program is counted with: 64 for each `par` and each
/// `both`, 16 for each other statement, 8 for each node of an expression, and 8 for main, for each
/// function and for each table. The code has at most so many. The answer is that sum, or the
/// greatest `u64` where the sum is above it, which no program that came from a text reaches.
pub fn block_count(program: &Checked) -> u64
    ensures { result ≡ min (blocks_of_program program.now) u64.MAX }
{
    let program = program.program();
    FOR_PART
        .saturating_add(in_decls(&program.tables))
        .saturating_add(in_funcs(&program.funcs))
        .saturating_add(in_list(&program.main))
}
