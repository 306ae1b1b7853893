// The first fork of a compiled `par` and of a compiled `both`, step by step.

ghost use Rattle.std.specs.Prelude.{◌≡◌, IfOk, IfSome};
ghost use Rattle.tpal_machine.specs.Belonging.{IsTurnOf, RunsOn, WaitsOn};

use crate::compiling::{Compiled, columns, compile};
use std::alloc::Global;
use std::test::Fail;
use tp_value::Stop;
use tpal_machine::{Pace, SideName, Task, Turn, answer, run_task};
use tpal_syntax::Code;

const BUDGET: u32 = 1_000_000;

/// How a task ended as a side of a record: the record, the side, how it stopped and its ticks.
type Arrival = (u32, SideName, Stop, u64);

/// The first task of a program's code, where each input has one column, of 1 to 4.
fn first(alloc: Global, on: &Compiled) -> Result<Task, Fail>
    ensures { IfOk result (RunsOn on.now.code) }
{
    let tables = columns(alloc, on.code.tables(), &[1, 2, 3, 4])?;
    Ok(Task::first(alloc, &on.code, tables, 1_000_000)?)
}

/// A turn of a task.
fn turn(task: Task, code: &Code, allowed: bool) -> Turn
    requires { RunsOn code.now task }
    ensures { IsTurnOf code.now result }
{
    let pace = Pace {
        heartbeat: 1,
        allowed,
    };
    run_task(task, code, pace, BUDGET).turn
}

/// The task of a first turn that asks for a record.
fn asking(task: Task, code: &Code) -> Option<Task>
    requires { RunsOn code.now task }
    ensures { IfSome result (WaitsOn code.now) }
{
    match turn(task, code, true) {
        Turn::NeedRecord(waits) => Some(waits),
        _ => None,
    }
}

/// The left and the child of a turn that forks under record 0.
fn forked(task: Task, code: &Code) -> Option<(Task, Task)>
    requires { RunsOn code.now task }
    ensures { IfSome result (λ parts. RunsOn code.now parts.0 × RunsOn code.now parts.1) }
{
    match turn(task, code, true) {
        Turn::Forked {
            left,
            rest: _,
            child,
            rec: 0,
        } => Some((left, child)),
        _ => None,
    }
}

/// How a task arrives that is run on and never diverted.
fn arrival(task: Task, code: &Code) -> Option<Arrival>
    requires { RunsOn code.now task }
{
    match turn(task, code, false) {
        Turn::Arrived { rec, side, out } => Some((rec, side, out.stop, out.ticks)),
        _ => None,
    }
}

/// How the left and the child of a program's first fork arrive.
fn arrivals(alloc: Global, source: &[u8]) -> Result<(Option<Arrival>, Option<Arrival>), Fail> {
    let on = compile(alloc, source)?;
    let waits = asking(first(alloc, &on)?, &on.code).ok_or("a question")?;
    let (left, child) = forked(answer(waits, Some(0)), &on.code).ok_or("a fork")?;
    Ok((arrival(left, &on.code), arrival(child, &on.code)))
}

/// How a side of record 0 arrives that is done.
fn done(side: SideName, ticks: u64) -> Option<Arrival> {
    Some((0, side, Stop::Done, ticks))
}

#[test]
fn a_par_forks_and_both_sides_arrive(rt: HostRuntime) -> Result<(), Fail> {
    let (left, child) = arrivals(
        rt.alloc(),
        b"input a;
        main {
            let s = 0;
            par i in 0..rows(a) reduce s by add { fold s with a[i][0]; }
            print s;
        }",
    )?;
    assert_eq!(&rt; left, done(SideName::Left, 2));
    assert_eq!(rt; child, done(SideName::Right, 2));
    Ok(())
}

#[test]
fn a_both_forks_and_both_sides_arrive(rt: HostRuntime) -> Result<(), Fail> {
    let (left, child) = arrivals(
        rt.alloc(),
        b"fn f(n) { loop i in 0..n { } return n; }
        main { let x = 0; let y = 0; both x = f(3), y = f(5); print x + y; }",
    )?;
    assert_eq!(&rt; left, done(SideName::Left, 4));
    assert_eq!(rt; child, done(SideName::Right, 6));
    Ok(())
}

#[test]
fn a_par_is_cut_in_an_iteration_and_both_sides_arrive(rt: HostRuntime) -> Result<(), Fail> {
    let (left, child) = arrivals(
        rt.alloc(),
        b"main {
            let s = 0;
            par i in 0..4 reduce s by add { par j in 0..3 reduce s by add { fold s with j; } }
            print s;
        }",
    )?;
    assert_eq!(&rt; left, done(SideName::Left, 8));
    assert_eq!(rt; child, done(SideName::Right, 8));
    Ok(())
}
