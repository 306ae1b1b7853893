// How many blocks a statement adds, how many variables it declares, and how many values it keeps. A
// number of blocks or of variables stands still at the greatest one of its type.

ghost use Rattle.std.specs.Prelude.{◌≡◌, ◌+◌, min};
ghost use Rattle.std.specs.List.{list_any};
ghost use Rattle.expr_lower.specs.Bodies.{trap_count};
ghost use Rattle.scene_laws.specs.Heights.{AllAreLow, AreLow};
ghost use Rattle.scene_laws.specs.Sizes as sizes;

use crate::layout::kept_by_both;
use crate::opposite::branch_blocks;
use crate::quiet::{is_leaf, list_is_quiet};
use expr_lower::trap_count;
use loop_syntax::{Carry, Expr, Func, ParLoop, Stmt, TableDecl};
use tp_value::MAX_EXPRESSION_HEIGHT;

/// How many trap blocks expressions have.
pub fn trap_counts(es: &[Expr]) -> u32
    ensures { result ≡ min (sizes.trap_counts es.now) u32.MAX }
{
    let mut sum: u32 = 0;
    for e in es {
        sum = sum.saturating_add(trap_count(e));
    }
    sum
}

fn trap_count_of_two(a: &Expr, b: &Expr) -> u32
    ensures { result ≡ min (trap_count a.now + trap_count b.now) u32.MAX }
{
    trap_count(a).saturating_add(trap_count(b))
}

/// How many blocks become closed between the begin of a statement and its end. `calls` says that no
/// point of promotion can be reached in a call.
#[cycle(sizes)]
fn added(calls: bool, s: &Stmt) -> u32
    ensures { result ≡ min (sizes.added calls s.now) u32.MAX }
{
    match s {
        Stmt::Let(_, e) => trap_count(e),
        Stmt::Set(_, e) => trap_count(e),
        Stmt::Put(_, a, b, e) => trap_count_of_two(a, b)
            .saturating_add(trap_count(e))
            .saturating_add(1),
        Stmt::If(e, body, other) => trap_count(e)
            .saturating_add(branch_blocks(e))
            .saturating_add(added_by_body(calls, body))
            .saturating_add(added_by_second(calls, other)),
        Stmt::While(e, body) => trap_count(e)
            .saturating_add(1)
            .saturating_add(added_by_body(calls, body))
            .saturating_add(trap_count(e)),
        Stmt::Loop(_, a, b, body) => trap_count_of_two(a, b)
            .saturating_add(1)
            .saturating_add(added_by_body(calls, body)),
        Stmt::Par(l) => added_by_par(calls, l),
        Stmt::Fold(_, e) => trap_count(e),
        Stmt::Call(_, f) => trap_counts(&f.args).saturating_add(2),
        Stmt::Both(_, f, _, g) => trap_counts(&f.args)
            .saturating_add(trap_counts(&g.args))
            .saturating_add(12),
        Stmt::Print(_, e) => trap_count(e),
        Stmt::Emit(_, _) => 0,
        Stmt::Leave(_, e) => trap_count(e).saturating_add(1),
        Stmt::Fill { .. } => 0,
    }
}

/// Whether a carry has a row.
fn has_row(carry: &Carry) -> bool
    ensures { result ≡ sizes.has_row carry.now }
{
    match carry {
        Carry::Rows(_, _) => false,
        Carry::Cells(_, _, _) => true,
    }
}

/// Whether one of these carries has a row.
pub fn have_row(carries: &[Carry]) -> bool
    ensures { result ≡ list_any sizes.has_row carries.now }
{
    for carry in carries {
        if has_row(carry) {
            return true;
        }
    }
    false
}

/// How many blocks a `par` has round its iterations.
pub fn site_blocks(carries: &[Carry]) -> u32
    ensures { result ≡ sizes.site_blocks carries.now }
{
    if have_row(carries) { 10 } else { 9 }
}

/// How many blocks a `par` adds.
#[cycle(sizes)]
fn added_by_par(calls: bool, l: &ParLoop) -> u32
    ensures { result ≡ min (sizes.added_by_par calls l.now) u32.MAX }
{
    let tests = trap_count_of_two(&l.from, &l.to).saturating_add(3);
    let body = added_by_body(calls, &l.body);
    let turns = if is_leaf(&l.body, &l.reduces) {
        body.saturating_mul(2).saturating_add(2)
    } else if list_is_quiet(&l.body, calls) {
        body.saturating_mul(2)
    } else {
        body.saturating_add(2)
    };
    tests
        .saturating_add(site_blocks(&l.carries))
        .saturating_add(turns)
}

/// How many blocks become closed between the begin of statements and their end.
#[cycle(sizes)]
pub fn added_by_list(calls: bool, body: &[Stmt]) -> u32
    ensures { result ≡ min (sizes.added_by_list calls body.now) u32.MAX }
{
    let mut sum: u32 = 0;
    for s in body {
        sum = sum.saturating_add(added(calls, s));
    }
    sum
}

/// The same for statements in blocks of their own.
#[cycle(sizes)]
pub fn added_by_body(calls: bool, body: &[Stmt]) -> u32
    ensures { result ≡ min (sizes.added_by_list calls body.now + 1) u32.MAX }
{
    added_by_list(calls, body).saturating_add(1)
}

/// The same for a second branch, which has no block where it is empty.
#[cycle(sizes)]
pub fn added_by_second(calls: bool, body: &[Stmt]) -> u32
    ensures { result ≡ min (sizes.added_by_second calls body.now) u32.MAX }
{
    if body.is_empty() {
        0
    } else {
        added_by_body(calls, body)
    }
}

/// How many blocks a function has.
pub fn added_by_func(calls: bool, f: &Func) -> u32
    ensures { result ≡ min (sizes.added_by_func calls f.now) u32.MAX }
{
    added_by_body(calls, &f.body).saturating_add(trap_count(&f.result))
}

/// How many trap blocks the sizes of a table have.
pub fn added_by_decl(d: &TableDecl) -> u32
    ensures { result ≡ min (sizes.added_by_decl d.now) u32.MAX }
{
    match d {
        TableDecl::Input(_) => 0,
        TableDecl::Made(_, a, b) => trap_count_of_two(a, b),
    }
}

/// How many trap blocks the sizes of tables have.
pub fn added_by_decls(ds: &[TableDecl]) -> u32
    ensures { result ≡ min (sizes.added_by_decls ds.now) u32.MAX }
{
    let mut sum: u32 = 0;
    for d in ds {
        sum = sum.saturating_add(added_by_decl(d));
    }
    sum
}

/// How many variables a statement declares.
#[cycle(declared)]
fn declared(s: &Stmt) -> usize
    ensures { result ≡ min (sizes.declared s.now) usize.MAX }
{
    match s {
        Stmt::Let(_, _) => 1,
        Stmt::Set(_, _) => 0,
        Stmt::Put(_, _, _, _) => 0,
        Stmt::If(_, body, other) => declared_by_list(body).saturating_add(declared_by_list(other)),
        Stmt::While(_, body) => declared_by_list(body),
        Stmt::Loop(_, _, _, body) => declared_by_list(body).saturating_add(1),
        Stmt::Par(l) => declared_by_list(&l.body).saturating_add(1),
        Stmt::Fold(_, _) => 0,
        Stmt::Call(_, _) => 0,
        Stmt::Both(_, _, _, _) => 0,
        Stmt::Print(_, _) => 0,
        Stmt::Emit(_, _) => 0,
        Stmt::Leave(_, _) => 0,
        Stmt::Fill { .. } => 0,
    }
}

/// How many variables statements declare.
#[cycle(declared)]
pub fn declared_by_list(body: &[Stmt]) -> usize
    ensures { result ≡ min (sizes.declared_by_list body.now) usize.MAX }
{
    let mut sum: usize = 0;
    for s in body {
        sum = sum.saturating_add(declared(s));
    }
    sum
}

/// Whether an expression can leave its value in this register.
pub fn is_low_at(to: u32, e: &Expr) -> bool
    ensures { result ≡ sizes.is_low_at to e.now }
{
    if to >= MAX_EXPRESSION_HEIGHT {
        return false;
    }
    match e {
        Expr::Int(_, _) | Expr::Var(_) | Expr::Rows(_) | Expr::Cols(_) => true,
        Expr::Neg(a, _) => is_low_at(to + 1, a),
        Expr::Cell(_, a, b) => is_low_at(to + 1, a) && is_low_at(to + 1, b),
        Expr::Bin(_, _, a, b) => is_low_at(to + 1, a) && is_low_at(to + 1, b),
    }
}

/// How many values a statement keeps in its activation while it computes others.
#[cycle(kept)]
fn kept(s: &Stmt) -> u16
    requires { AreLow s.now }
    ensures { result ≡ sizes.kept s.now }
{
    match s {
        Stmt::Let(_, _) => 0,
        Stmt::Set(_, _) => 0,
        Stmt::Put(_, _, b, e) => {
            if is_low_at(1, b) && is_low_at(2, e) {
                0
            } else {
                2
            }
        }
        Stmt::If(_, body, other) => kept_by_list(body).max(kept_by_list(other)),
        Stmt::While(_, body) => kept_by_list(body),
        Stmt::Loop(_, _, _, body) => kept_by_list(body),
        Stmt::Par(l) => kept_by_list(&l.body),
        Stmt::Fold(_, _) => 0,
        Stmt::Call(_, _) => 0,
        Stmt::Both(_, _, _, g) => kept_by_both(g.args.len() as u16),
        Stmt::Print(_, _) => 0,
        Stmt::Emit(_, _) => 0,
        Stmt::Leave(_, _) => 0,
        Stmt::Fill { .. } => 0,
    }
}

/// How many values statements keep: as many as the one that keeps most.
#[cycle(kept)]
pub fn kept_by_list(body: &[Stmt]) -> u16
    requires { AllAreLow body.now }
    ensures { result ≡ sizes.kept_by_list body.now }
{
    let mut most: u16 = 0;
    for s in body {
        most = most.max(kept(s));
    }
    most
}

/// How many values are kept while a table is made.
fn kept_by_decl(d: &TableDecl) -> u16
    ensures { result ≡ sizes.kept_by_decl d.now }
{
    match d {
        TableDecl::Input(_) => 0,
        TableDecl::Made(_, _, b) => { if is_low_at(1, b) { 0 } else { 1 } }
    }
}

/// How many values are kept while tables are made.
pub fn kept_by_decls(ds: &[TableDecl]) -> u16
    ensures { result ≡ sizes.kept_by_decls ds.now }
{
    let mut most: u16 = 0;
    for d in ds {
        most = most.max(kept_by_decl(d));
    }
    most
}
