// What a turn counts, and where it leaves a task.

ghost use Rattle.std.specs.Prelude.{◌≡◌, ◌≤◌, length, IfOk, IfSome};
ghost use Rattle.tpal_machine.specs.Belonging.{RunsOn};

use crate::codes::{ROWS, block, code_of, tables_of};
use crate::instructions::{TO_HEAD, calc, promoted, set};
use crate::runs::PROMPT;
use std::alloc::Global;
use std::test::Fail;
use tp_value::{NoMemory, Outcome, Stop};
use tpal_machine::{Ran, Task, Turn, run_task};
use tpal_syntax::{Alu, Code, Instr, Note, Term, Value};

const NONE: (&[Instr], Term) = (&[], Term::Halt);

#[test]
fn a_turn_counts_its_steps(rt: HostRuntime) -> Result<(), Fail> {
    let main = [Instr::Print(31), Instr::Tick];
    let code = code_of(rt.alloc(), ROWS, (&main, Term::Halt), NONE)?.expect(&rt, "a code");
    let task = Task::first(rt.alloc(), &code, tables_of(rt.alloc())?, 0)?;
    let ran = run_task(task, &code, PROMPT, 9);
    assert_eq!(rt; (ran.steps, ran.beats), (2, 0));
    match ran.turn {
        Turn::Halted(outcome) => {
            assert_eq!(rt; outcome.stop, Stop::NoFuel);
            assert_eq!(rt; outcome.output.items(), b"0\n".as_slice());
            assert_eq!(rt; outcome.ticks, 1);
        }
        Turn::Pause(_)
        | Turn::NeedRecord(_)
        | Turn::Forked { .. }
        | Turn::Arrived { .. }
        | Turn::Stuck { .. }
        | Turn::NoMemory => panic!(rt; "no end"),
    }
    Ok(())
}

// The steps and beats of a turn that comes to a promotion-ready block by its fourth instruction,
// and asks for a record by its fifth.
fn counts_of(alloc: Global, budget: u32) -> Result<Option<(u64, u64)>, NoMemory>
    requires { 1 ≤ budget }
{
    match code_of(alloc, ROWS, (&promoted(), TO_HEAD), NONE)? {
        None => Ok(None),
        Some(code) => {
            let task = Task::first(alloc, &code, tables_of(alloc)?, 100)?;
            let ran = run_task(task, &code, PROMPT, budget);
            Ok(Some((ran.steps, ran.beats)))
        }
    }
}

// Where a task stands after a turn of so many instructions, if it goes on.
fn stands_after(alloc: Global, budget: u32) -> Result<Option<(u32, u32)>, NoMemory>
    requires { 1 ≤ budget }
{
    match code_of(alloc, ROWS, (&promoted(), TO_HEAD), NONE)? {
        None => Ok(None),
        Some(code) => {
            let task = Task::first(alloc, &code, tables_of(alloc)?, 100)?;
            match run_task(task, &code, PROMPT, budget).turn {
                Turn::Pause(task) => Ok(Some(task.at())),
                Turn::Halted(_)
                | Turn::NeedRecord(_)
                | Turn::Forked { .. }
                | Turn::Arrived { .. }
                | Turn::Stuck { .. }
                | Turn::NoMemory => Ok(None),
            }
        }
    }
}

#[test]
fn a_task_tells_where_it_stands(rt: HostRuntime) -> Result<(), Fail> {
    let alloc = rt.alloc();
    assert_eq!(rt; stands_after(alloc, 1)?, Some((0, 1)));
    assert_eq!(rt; stands_after(alloc, 3)?, Some((0, 3)));
    assert_eq!(rt; stands_after(alloc, 4)?, Some((2, 0)));
    Ok(())
}

#[test]
fn a_turn_counts_its_beats(rt: HostRuntime) -> Result<(), Fail> {
    let alloc = rt.alloc();
    assert_eq!(rt; counts_of(alloc, 3)?, Some((3, 0)));
    assert_eq!(rt; counts_of(alloc, 4)?, Some((4, 1)));
    assert_eq!(rt; counts_of(alloc, 9)?, Some((5, 1)));
    Ok(())
}

// main: plain, r0 := 2, r0 := r0 add 3, print r0, halt
fn sum_code(alloc: Global) -> Result<Option<Code>, NoMemory>
    ensures { IfOk result (λ made. IfSome made (λ code. length code.tables ≡ 0)) }
{
    let main = [
        set(0, 2),
        calc(0, 0, Alu::Add, Value::Int(3)),
        Instr::Print(0),
    ];
    let mut blocks = Vec::new(alloc);
    blocks.push(block(alloc, b"main", Note::Plain, &main, Term::Halt)?)?;
    Code::new(alloc, Vec::new(alloc), blocks)
}

// The outcome of a task that ends the run in one turn, and the steps of this turn.
fn halted(task: Task, code: &Code) -> Option<(u64, Outcome)>
    requires { RunsOn code.now task }
{
    let Ran {
        turn,
        steps,
        beats: _,
    } = run_task(task, code, PROMPT, 100);
    match turn {
        Turn::Halted(outcome) => Some((steps, outcome)),
        Turn::Pause(_)
        | Turn::NeedRecord(_)
        | Turn::Forked {
            left: _,
            rest: _,
            child: _,
            rec: _,
        }
        | Turn::Arrived {
            rec: _,
            side: _,
            out: _,
        }
        | Turn::Stuck {
            fault: _,
            block: _,
            at: _,
        }
        | Turn::NoMemory => None,
    }
}

#[test]
fn two_and_three_are_five_in_four_steps(rt: HostRuntime) -> Result<(), Fail> {
    let alloc = rt.alloc();
    let code = sum_code(alloc)?.expect(&rt, "a code");
    let task = Task::first(alloc, &code, Vec::new(alloc), 0)?;
    let (steps, outcome) = halted(task, &code).expect(&rt, "an end");
    assert_eq!(rt; steps, 4);
    assert_eq!(rt; outcome.stop, Stop::Done);
    assert_eq!(rt; outcome.output.items(), b"5\n".as_slice());
    assert_eq!(rt; outcome.ticks, 0);
    Ok(())
}
