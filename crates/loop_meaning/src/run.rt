// What statements do, and calls.

ghost use Rattle.std.specs.Prelude.{◌≡◌, ◌-◌, ◌+ℤ◌, IfOk, Some, [], ◌+◌, pos, FitsSigned};
ghost use Rattle.std.specs.Int.{int_gap, w64};
ghost use Rattle.tp_value.specs.declared.limits.TheConstants.{MAX_CALL_DEPTH};
ghost use Rattle.loop_meaning.specs.Statements.{run, run_list, run_call, run_both, two_calls};
ghost use Rattle.loop_meaning.specs.Statements.{block, turns, iteration, iterate, given_two};
ghost use Rattle.loop_meaning.specs.Statements.{unless_wide, too_wide};
ghost use Rattle.loop_meaning.specs.Leaving.{left_list, caught};
ghost use Rattle.loop_meaning.specs.Calls.{call_at, enter};
ghost use Rattle.loop_meaning.specs.Ends.{setting_of, state_of, Ends, CallEnds};

use crate::argument::{Numbers, Returned, bound, numbers_of, stopped};
use crate::expression::value_of;
use crate::left::{caught, run_leave};
use crate::memory::{Memory, assign, count_tick, declare, leave};
use crate::setting::Setting;
use crate::simple::{run_emit, run_fold, run_let, run_print, run_put, run_set};
use crate::value::Answer;
use loop_syntax::{App, Expr, Func, Name, ParLoop, Stmt};
use std::mem;
use tp_value::{MAX_CALL_DEPTH, MAX_PAR_LENGTH, NoMemory, Stop, TrapKind};

#[cycle(run)]
fn run_stmt(setting: &Setting, memory: &mut Memory, statement: &Stmt) -> Result<Stop, NoMemory>
    ensures { IfOk result
        (λ x.
        Ends (run (setting_of setting.now) statement.now (state_of memory.old)) x
        (state_of memory.new)) }
{
    match statement {
        Stmt::Let(x, e) => run_let(setting.alloc, memory, x, e),
        Stmt::Set(x, e) => Ok(run_set(memory, x, e)),
        Stmt::Put(t, a, b, e) => Ok(run_put(setting.alloc, memory, t, a, b, e)),
        Stmt::If(e, body, other) => match value_of(memory, e) {
            Answer::Number(n) => {
                if n != 0 {
                    run_block(setting, memory, body)
                } else {
                    run_block(setting, memory, other)
                }
            }
            Answer::Traps(kind, place) => Ok(Stop::Trap(kind, place)),
        },
        Stmt::While(e, body) => run_while(setting, memory, body, e),
        Stmt::Loop(x, a, b, body) => run_loop(setting, memory, body, x, a, b),
        Stmt::Par(l) => run_par(setting, memory, l),
        Stmt::Fold(x, e) => Ok(run_fold(memory, setting.reduces, x, e)),
        Stmt::Call(x, f) => run_call(setting, memory, x, f),
        Stmt::Both(x, f, y, g) => run_both(setting, memory, x, f, y, g),
        Stmt::Print(_, e) => run_print(setting.alloc, memory, e),
        Stmt::Emit(_, t) => run_emit(memory, t),
        Stmt::Leave(_, e) => Ok(run_leave(memory, e)),
        Stmt::Fill { .. } => Ok(Stop::Done),
    }
}

/// The statements of a list in order.
#[cycle(run)]
pub fn run_list(setting: &Setting, memory: &mut Memory, body: &[Stmt]) -> Result<Stop, NoMemory>
    ensures { IfOk result
        (λ x.
        Ends (run_list (setting_of setting.now) body.now (state_of memory.old)) x
        (state_of memory.new)) }
{
    for s in body {
        match run_stmt(setting, memory, s)? {
            Stop::Done => {}
            stop => return Ok(stop),
        }
    }
    Ok(Stop::Done)
}

#[cycle(run)]
fn run_block(setting: &Setting, memory: &mut Memory, body: &[Stmt]) -> Result<Stop, NoMemory>
    ensures { IfOk result
        (λ x. Ends (block (run_list (setting_of setting.now) body.now) (state_of memory.old)) x
        (state_of memory.new)) }
{
    let n = memory.vars.len();
    let stop = run_list(setting, memory, body)?;
    leave(memory, n);
    Ok(stop)
}

/// A `while`: each turn counts a tick, so that turns beyond the fuel and one are never begun.
#[cycle(run)]
fn run_while(
    setting: &Setting,
    memory: &mut Memory,
    body: &[Stmt],
    condition: &Expr,
) -> Result<Stop, NoMemory>
    ensures { IfOk result
        (λ x. Ends
        (turns (setting.now.fuel + 1) setting.now.fuel condition.now
        (block (run_list (setting_of setting.now) body.now))
        (state_of memory.old))
        x (state_of memory.new)) }
{
    let turns = setting.fuel + 1;
    for i in 0..turns {
        match value_of(memory, condition) {
            Answer::Number(n) => {
                if n == 0 {
                    return Ok(Stop::Done);
                }
            }
            Answer::Traps(kind, place) => return Ok(Stop::Trap(kind, place)),
        }
        match count_tick(memory, setting.fuel) {
            Stop::Done => {}
            stop => return Ok(stop),
        }
        match run_block(setting, memory, body)? {
            Stop::Done => {}
            stop => return Ok(stop),
        }
    }
    Ok(Stop::NoFuel)
}

/// One iteration over the variable x, with the number i.
#[cycle(run)]
fn run_iteration(
    setting: &Setting,
    memory: &mut Memory,
    body: &[Stmt],
    variable: &[u8],
    i: i64,
) -> Result<Stop, NoMemory>
    ensures { IfOk result
        (λ y. Ends
        (iteration setting.now.fuel variable.now (run_list (setting_of setting.now) body.now) [] i
        (state_of memory.old))
        y (state_of memory.new)) }
{
    let n = memory.vars.len();
    match count_tick(memory, setting.fuel) {
        Stop::Done => {}
        stop => {
            leave(memory, n);
            return Ok(stop);
        }
    }
    declare(setting.alloc, memory, variable, i)?;
    let stop = run_list(setting, memory, body)?;
    leave(memory, n);
    Ok(stop)
}

/// The iterations with the numbers first, first + 1, .. of which there are n.
#[cycle(run)]
fn run_iterations(
    setting: &Setting,
    memory: &mut Memory,
    body: &[Stmt],
    variable: &[u8],
    first: i64,
    n: u64,
) -> Result<Stop, NoMemory>
    requires { FitsSigned w64 (first +ℤ pos n) }
    ensures { IfOk result
        (λ y. Ends
        (iterate setting.now.fuel variable.now (run_list (setting_of setting.now) body.now) [] [] n
        first
        (state_of memory.old))
        y (state_of memory.new)) }
{
    for j in 0..n {
        match run_iteration(
            setting,
            memory,
            body,
            variable,
            first.wrapping_add_unsigned(j),
        )? {
            Stop::Done => {}
            stop => return Ok(stop),
        }
    }
    Ok(Stop::Done)
}

/// How far b is above a, or 0.
fn gap(a: i64, b: i64) -> u64
    ensures { result ≡ int_gap a b }
{
    if a < b { b.abs_diff(a) } else { 0 }
}

#[cycle(run)]
fn run_loop(
    setting: &Setting,
    memory: &mut Memory,
    body: &[Stmt],
    variable: &Name,
    from: &Expr,
    to: &Expr,
) -> Result<Stop, NoMemory>
    ensures { IfOk result
        (λ y. Ends
        (let s = state_of memory.old in given_two from.now to.now s
        (λ i j.
        iterate setting.now.fuel variable.now.text.items
        (run_list (setting_of setting.now) body.now) [] []
        (int_gap i j) i s))
        y (state_of memory.new)) }
{
    match value_of(memory, from) {
        Answer::Number(i) => match value_of(memory, to) {
            Answer::Number(j) => run_iterations(
                setting,
                memory,
                body,
                variable.text.as_slice(),
                i,
                gap(i, j),
            ),
            Answer::Traps(kind, place) => Ok(Stop::Trap(kind, place)),
        },
        Answer::Traps(kind, place) => Ok(Stop::Trap(kind, place)),
    }
}

/// The iterations of a `par`, of which there are n.
#[cycle(run)]
fn run_body(
    setting: &Setting,
    memory: &mut Memory,
    par: &ParLoop,
    first: i64,
    n: u64,
) -> Result<Stop, NoMemory>
    requires { FitsSigned w64 (first +ℤ pos n) }
    ensures { IfOk result
        (λ y. Ends
        (iterate setting.now.fuel par.now.var.text.items
        (run_list (record (setting_of setting.now) { reduces = par.now.reduces.items })
        par.now.body.items)
        [] [] n first (state_of memory.old))
        y (state_of memory.new)) }
{
    let inner = Setting {
        alloc: setting.alloc,
        program: setting.program,
        reduces: &par.reduces,
        fuel: setting.fuel,
        depth: setting.depth,
    };
    run_iterations(&inner, memory, &par.body, par.var.text.as_slice(), first, n)
}

#[cycle(run)]
fn run_par(setting: &Setting, memory: &mut Memory, par: &ParLoop) -> Result<Stop, NoMemory>
    ensures { IfOk result
        (λ y. Ends
        (let s = state_of memory.old in given_two par.now.from par.now.to s
        (λ i j. unless_wide (too_wide i j) par.now.place (λ t. caught (left_list par.now.body.items)
        (iterate setting.now.fuel par.now.var.text.items
        (run_list (record (setting_of setting.now) { reduces = par.now.reduces.items })
        par.now.body.items)
        [] [] (int_gap i j) i t))
        s))
        y (state_of memory.new)) }
{
    match value_of(memory, &par.from) {
        Answer::Number(i) => match value_of(memory, &par.to) {
            Answer::Number(j) => {
                let n = gap(i, j);
                if n > MAX_PAR_LENGTH {
                    Ok(Stop::Trap(TrapKind::Wide, par.place))
                } else {
                    let stop = run_body(setting, memory, par, i, n)?;
                    Ok(caught(memory, stop, &par.body))
                }
            }
            Answer::Traps(kind, place) => Ok(Stop::Trap(kind, place)),
        },
        Answer::Traps(kind, place) => Ok(Stop::Trap(kind, place)),
    }
}

/// A function's body and its result, at the depth of its call.
#[cycle(run)]
fn enter(
    setting: &Setting,
    memory: &mut Memory,
    func: &Func,
    arguments: &[i64],
) -> Result<Returned, NoMemory>
    ensures { IfOk result
        (λ r. CallEnds
        (enter (record (setting_of setting.now) { reduces = [] }) (Some func.now) arguments.now []
        (state_of memory.old))
        r.stop r.value (state_of memory.new)) }
{
    let inner = Setting {
        alloc: setting.alloc,
        program: setting.program,
        reduces: &[],
        fuel: setting.fuel,
        depth: setting.depth,
    };
    let vars = bound(setting.alloc, &func.params, arguments)?;
    let saved = mem::replace(&mut memory.vars, vars);
    let done = run_list(&inner, memory, &func.body)?;
    let end = match done {
        Stop::Done => match value_of(memory, &func.result) {
            Answer::Number(value) => Returned {
                stop: Stop::Done,
                value,
            },
            Answer::Traps(kind, place) => stopped(Stop::Trap(kind, place)),
        },
        stop => stopped(stop),
    };
    memory.vars = saved;
    Ok(end)
}

/// A call of a function.
#[cycle(run)]
fn call(
    setting: &Setting,
    memory: &mut Memory,
    callee: &Name,
    arguments: &[i64],
) -> Result<Returned, NoMemory>
    ensures { IfOk result
        (λ r. CallEnds
        (call_at setting.now.program.now.funcs.items setting.now.fuel
        (MAX_CALL_DEPTH - setting.now.depth)
        callee.now.text.items callee.now.place arguments.now [] (state_of memory.old))
        r.stop r.value (state_of memory.new)) }
{
    match count_tick(memory, setting.fuel) {
        Stop::Done => {}
        stop => return Ok(stopped(stop)),
    }
    if setting.depth >= MAX_CALL_DEPTH {
        return Ok(stopped(Stop::Trap(TrapKind::Deep, callee.place)));
    }
    let inner = Setting {
        alloc: setting.alloc,
        program: setting.program,
        reduces: &[],
        fuel: setting.fuel,
        depth: setting.depth + 1,
    };
    match setting.program.func(&callee.text) {
        Some(g) => enter(&inner, memory, g, arguments),
        None => Ok(stopped(Stop::Done)),
    }
}

#[cycle(run)]
fn run_call(
    setting: &Setting,
    memory: &mut Memory,
    target: &Name,
    application: &App,
) -> Result<Stop, NoMemory>
    ensures { IfOk result
        (λ y.
        Ends
        (run_call (setting_of setting.now) target.now application.now (state_of memory.old))
        y (state_of memory.new)) }
{
    match numbers_of(setting.alloc, memory, &application.args)? {
        Numbers::All(ns) => {
            let end = call(setting, memory, &application.callee, &ns)?;
            match end.stop {
                Stop::Done => {
                    assign(memory, target.text.as_slice(), end.value);
                    Ok(Stop::Done)
                }
                stop => Ok(stop),
            }
        }
        Numbers::Traps(kind, place) => Ok(Stop::Trap(kind, place)),
    }
}

/// The two calls of a `both`, and then its two assignments.
#[cycle(run)]
fn run_two(
    setting: &Setting,
    memory: &mut Memory,
    target: &Name,
    callee: &Name,
    arguments: &[i64],
    second_target: &Name,
    second_callee: &Name,
    second_arguments: &[i64],
) -> Result<Stop, NoMemory>
    ensures { IfOk result
        (λ r. Ends
        (two_calls (setting_of setting.now) target.now callee.now arguments.now second_target.now
        second_callee.now second_arguments.now [] (state_of memory.old))
        r
        (state_of memory.new)) }
{
    let first = call(setting, memory, callee, arguments)?;
    match first.stop {
        Stop::Done => {}
        stop => return Ok(stop),
    }
    let second = call(setting, memory, second_callee, second_arguments)?;
    match second.stop {
        Stop::Done => {}
        stop => return Ok(stop),
    }
    assign(memory, target.text.as_slice(), first.value);
    assign(memory, second_target.text.as_slice(), second.value);
    Ok(Stop::Done)
}

#[cycle(run)]
fn run_both(
    setting: &Setting,
    memory: &mut Memory,
    target: &Name,
    application: &App,
    second_target: &Name,
    second_application: &App,
) -> Result<Stop, NoMemory>
    ensures { IfOk result
        (λ y.
        Ends
        (run_both (setting_of setting.now) target.now application.now second_target.now
        second_application.now (state_of memory.old))
        y
        (state_of memory.new)) }
{
    match numbers_of(setting.alloc, memory, &application.args)? {
        Numbers::All(ns) => match numbers_of(setting.alloc, memory, &second_application.args)? {
            Numbers::All(ms) => run_two(
                setting,
                memory,
                target,
                &application.callee,
                &ns,
                second_target,
                &second_application.callee,
                &ms,
            ),
            Numbers::Traps(kind, place) => Ok(Stop::Trap(kind, place)),
        },
        Numbers::Traps(kind, place) => Ok(Stop::Trap(kind, place)),
    }
}
