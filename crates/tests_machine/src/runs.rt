// Runs of codes written by hand, in turns of many instructions and of one: a turn that has steps
// enough executes ops, and in turns of one instruction each is executed alone.

ghost use Rattle.std.specs.Prelude.{◌≤◌};
ghost use Rattle.tpal_machine.specs.Belonging.{RunsOn};

use crate::codes::{ROWS, code_of, tables_of};
use crate::instructions::TO_BOTH;
use std::alloc::Global;
use std::process::Abort;
use tp_value::{NoMemory, Outcome};
use tpal_machine::{Fault, Pace, Task, Turn, answer, run_task};
use tpal_syntax::{Code, Instr, Term};

// Each task is diverted where it may be.
pub(crate) const PROMPT: Pace = Pace {
    heartbeat: 1,
    allowed: true,
};

const CALM: Pace = Pace {
    heartbeat: 1_000,
    allowed: false,
};

// A fault with its place: the block, and the instruction in it.
pub(crate) type Found = (Fault, u32, u32);

// The fault that a task comes to, in turns of so many instructions, at most so many turns. Each
// wait is answered with record 7, and a fork goes on with the child.
fn fault_from(task: Task, code: &Code, budget: u32, turns: u8) -> Option<Found>
    requires belongs { RunsOn code.now task }
    requires budget { 1 ≤ budget }
{
    if turns == 0 {
        return None;
    }
    match run_task(task, code, PROMPT, budget).turn {
        Turn::Pause(next) => fault_from(next, code, budget, turns - 1),
        Turn::NeedRecord(waits) => fault_from(answer(waits, Some(7)), code, budget, turns - 1),
        Turn::Forked {
            left: _,
            rest: _,
            child,
            rec: _,
        } => fault_from(child, code, budget, turns - 1),
        Turn::Stuck { fault, block, at } => Some((fault, block, at)),
        Turn::Arrived {
            rec: _,
            side: _,
            out: _,
        }
        | Turn::Halted(_)
        | Turn::NoMemory => None,
    }
}

// The fault of a code with this main and this side, in turns of so many instructions.
fn fault_of(
    alloc: Global,
    main: (&[Instr], Term),
    side: (&[Instr], Term),
    budget: u32,
) -> Result<Option<Found>, NoMemory>
    requires { 1 ≤ budget }
{
    match code_of(alloc, ROWS, main, side)? {
        None => Ok(None),
        Some(code) => {
            let task = Task::first(alloc, &code, tables_of(alloc)?, 100)?;
            Ok(fault_from(task, &code, budget, 60))
        }
    }
}

// Runs a code with this main, and this side that halts, and compares the fault that it comes to.
pub(crate) fn expect_fault<R: Abort + AllocGlobal>(
    rt: &R,
    main: (&[Instr], Term),
    side: &[Instr],
    wanted: Found,
) -> Result<(), NoMemory> {
    expect_fault_in(rt, main, (side, Term::Halt), wanted)
}

// The same with this side and its end.
pub(crate) fn expect_fault_in<R: Abort + AllocGlobal>(
    rt: &R,
    main: (&[Instr], Term),
    side: (&[Instr], Term),
    wanted: Found,
) -> Result<(), NoMemory> {
    let found = fault_of(rt.alloc(), main, side, 100)?;
    assert_eq!(rt; found, Some(wanted));
    let slowly = fault_of(rt.alloc(), main, side, 1)?;
    assert_eq!(rt; slowly, Some(wanted));
    Ok(())
}

// How a task ends a run in turns of so many instructions, at most so many turns; how many
// instructions that took.
fn ending_of(task: Task, code: &Code, budget: u32, turns: u8, steps: u64) -> Option<(u64, Outcome)>
    requires belongs { RunsOn code.now task }
    requires budget { 1 ≤ budget }
{
    if turns == 0 {
        return None;
    }
    let ran = run_task(task, code, CALM, budget);
    let steps = steps.wrapping_add(ran.steps);
    match ran.turn {
        Turn::Pause(next) => ending_of(next, code, budget, turns - 1, steps),
        Turn::Halted(outcome) => Some((steps, outcome)),
        Turn::NeedRecord(_)
        | Turn::Forked {
            left: _,
            rest: _,
            child: _,
            rec: _,
        }
        | Turn::Arrived {
            rec: _,
            side: _,
            out: _,
        }
        | Turn::Stuck {
            fault: _,
            block: _,
            at: _,
        }
        | Turn::NoMemory => None,
    }
}

// The same of a code with this main, and a side that jumps to both, with fuel for 3 ticks.
fn ended(
    alloc: Global,
    main: (&[Instr], Term),
    side: &[Instr],
    budget: u32,
) -> Result<Option<(u64, Outcome)>, NoMemory>
    requires { 1 ≤ budget }
{
    match code_of(alloc, ROWS, main, (side, TO_BOTH))? {
        None => Ok(None),
        Some(code) => {
            let task = Task::first(alloc, &code, tables_of(alloc)?, 3)?;
            Ok(ending_of(task, &code, budget, 60, 0))
        }
    }
}

// The outcome of a code with this main and this side, which is the same in turns of 100
// instructions and of one, after as many.
pub(crate) fn outcome_of<R: Abort + AllocGlobal>(
    rt: &R,
    main: (&[Instr], Term),
    side: &[Instr],
) -> Result<Outcome, NoMemory> {
    let (steps, outcome) = ended(rt.alloc(), main, side, 100)?.expect(rt, "an end");
    let (alone, slowly) = ended(rt.alloc(), main, side, 1)?.expect(rt, "an end");
    assert_eq!(rt; alone, steps);
    assert_eq!(rt; slowly.stop, outcome.stop);
    assert_eq!(rt; slowly.ticks, outcome.ticks);
    assert_eq!(rt; slowly.output.items(), outcome.output.items());
    Ok(outcome)
}

// Runs a code with this main and this side, and compares what it prints.
pub(crate) fn expect_output<R: Abort + AllocGlobal>(
    rt: &R,
    main: (&[Instr], Term),
    side: &[Instr],
    wanted: &[u8],
) -> Result<(), NoMemory> {
    let outcome = outcome_of(rt, main, side)?;
    assert_eq!(rt; outcome.output.items(), wanted);
    Ok(())
}
