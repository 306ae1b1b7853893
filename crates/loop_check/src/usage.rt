// What functions do themselves.

ghost use Rattle.std.specs.Prelude.{◌≡◌, ◌++◌, ◌||◌, None, Some};
ghost use Rattle.loop_rules.specs.Names.{func_of};
ghost use Rattle.loop_rules.specs.Sites.{in_expr, in_whole, in_args, in_app, in_stmt, in_list};
ghost use Rattle.loop_check.specs.Usage.{reads_table, calls_func, any_use, anywhere, uses};

use loop_syntax::{App, Expr, ParLoop, Program, Stmt};

/// What is looked for in a function.
#[derive(Clone, Copy)]
pub enum Usage<'a> {
    /// A read of a cell of that table.
    Reads(&'a [u8]),
    /// A call of that function.
    Calls(&'a [u8]),
}

/// A read of a table.
fn reads(usage: &Usage, found: &mut bool, name: &[u8])
    ensures { found.new ≡ (reads_table usage.now name.now || found.old) }
{
    match usage {
        Usage::Reads(table) => {
            if name == *table {
                *found = true;
            }
        }
        Usage::Calls(_) => {}
    }
}

/// A call of a function.
fn calls(usage: &Usage, found: &mut bool, callee: &[u8])
    ensures { found.new ≡ (calls_func usage.now callee.now || found.old) }
{
    match usage {
        Usage::Reads(_) => {}
        Usage::Calls(func) => {
            if callee == *func {
                *found = true;
            }
        }
    }
}

#[tactic(auto, using(crate::proofs::Using::any_append))]
fn in_expr(usage: &Usage, found: &mut bool, expression: &Expr)
    ensures { found.new ≡ any_use usage.now found.old (in_expr anywhere expression.now) }
{
    match expression {
        Expr::Int(_, _) => {}
        Expr::Var(_) => {}
        Expr::Cell(t, a, b) => {
            reads(usage, found, &t.text);
            in_expr(usage, found, a);
            in_expr(usage, found, b);
        }
        Expr::Rows(_) => {}
        Expr::Cols(_) => {}
        Expr::Neg(a, _) => in_expr(usage, found, a),
        Expr::Bin(_, _, a, b) => {
            in_expr(usage, found, a);
            in_expr(usage, found, b);
        }
    }
}

fn in_args(usage: &Usage, found: &mut bool, arguments: &[Expr])
    ensures { found.new ≡ any_use usage.now found.old (in_args anywhere arguments.now) }
{
    for e in arguments {
        in_expr(usage, found, e);
    }
}

fn in_app(usage: &Usage, found: &mut bool, call: &App)
    ensures { found.new ≡ any_use usage.now found.old (in_app anywhere call.now) }
{
    calls(usage, found, &call.callee.text);
    in_args(usage, found, &call.args);
}

#[tactic(auto, using(crate::proofs::Using::any_append))]
fn in_two(usage: &Usage, found: &mut bool, first: &Expr, second: &Expr)
    ensures { found.new
        ≡ any_use usage.now found.old (in_whole anywhere first.now
        ++ in_whole anywhere second.now) }
{
    in_expr(usage, found, first);
    in_expr(usage, found, second);
}

#[tactic(auto, using(crate::proofs::Using::any_append))]
fn in_put(usage: &Usage, found: &mut bool, row: &Expr, column: &Expr, value: &Expr)
    ensures { found.new
        ≡ any_use usage.now found.old
        (in_whole anywhere row.now
        ++ (in_whole anywhere column.now ++ in_whole anywhere value.now)) }
{
    in_expr(usage, found, row);
    in_expr(usage, found, column);
    in_expr(usage, found, value);
}

fn in_both(usage: &Usage, found: &mut bool, first: &App, second: &App)
    ensures { found.new
        ≡ any_use usage.now found.old (in_app anywhere first.now ++ in_app anywhere second.now) }
{
    in_app(usage, found, first);
    in_app(usage, found, second);
}

#[cycle(walk)]
fn in_stmt(usage: &Usage, found: &mut bool, statement: &Stmt)
    ensures { found.new ≡ any_use usage.now found.old (in_stmt anywhere statement.now) }
{
    match statement {
        Stmt::Let(_, e) => in_expr(usage, found, e),
        Stmt::Set(_, e) => in_expr(usage, found, e),
        Stmt::Put(_, a, b, e) => in_put(usage, found, a, b, e),
        Stmt::If(e, body, other) => {
            in_expr(usage, found, e);
            in_list(usage, found, body);
            in_list(usage, found, other);
        }
        Stmt::While(e, body) => {
            in_expr(usage, found, e);
            in_list(usage, found, body);
        }
        Stmt::Loop(_, a, b, body) => {
            in_two(usage, found, a, b);
            in_list(usage, found, body);
        }
        Stmt::Par(l) => in_par(usage, found, l),
        Stmt::Fold(_, e) => in_expr(usage, found, e),
        Stmt::Call(_, f) => in_app(usage, found, f),
        Stmt::Both(_, f, _, g) => in_both(usage, found, f, g),
        Stmt::Print(_, e) => in_expr(usage, found, e),
        Stmt::Emit(_, _) => {}
        Stmt::Leave(_, e) => in_expr(usage, found, e),
        Stmt::Fill { .. } => {}
    }
}

#[cycle(walk)]
fn in_list(usage: &Usage, found: &mut bool, body: &[Stmt])
    ensures { found.new ≡ any_use usage.now found.old (in_list anywhere body.now) }
{
    for s in body {
        in_stmt(usage, found, s);
    }
}

#[cycle(walk)]
fn in_par(usage: &Usage, found: &mut bool, par: &ParLoop)
    ensures { found.new ≡ any_use usage.now found.old (in_stmt anywhere (Stmt.Par par.now)) }
{
    in_two(usage, found, &par.from, &par.to);
    in_list(usage, found, &par.body);
}

/// Whether the function of that name does that.
pub fn uses(program: &Program, name: &[u8], usage: &Usage) -> bool
    ensures { result ≡ uses program.now usage.now (func_of program.now.funcs.items name.now) }
{
    match program.func(name) {
        Some(g) => {
            let mut found = false;
            in_list(usage, &mut found, &g.body);
            in_expr(usage, &mut found, &g.result);
            found
        }
        None => false,
    }
}
