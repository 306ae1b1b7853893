// A leaf loop, whose iterations work on registers, instruction by instruction.

ghost use Rattle.tpal_machine.specs.Belonging.{RunsOn};

use crate::compiling::{checked, columns};
use block_lower::lower;
use std::test::Fail;
use tp_value::{Outcome, Stop};
use tpal_machine::{Pace, Task, Turn, run_task};
use tpal_syntax::{Block, Code, Instr, Note};

/// A beat is due after more ticks than a run has.
const PACE: Pace = Pace {
    heartbeat: 1_000_000_000,
    allowed: true,
};

/// A leaf loop of nine iterations.
const SUM: &[u8] = b"main { let s = 0; par i in 0..9 reduce s by add { fold s with i; } print s; }";

/// Whether a beat may divert a task that enters a block.
fn is_ready(block: &Block) -> bool {
    match block.note {
        Note::Ready(_) => true,
        _ => false,
    }
}

/// Whether the instruction at a position of a block reads or writes a cell.
fn is_of_cell(block: &Block, at: u32) -> bool {
    match block.body.items().get(at as usize) {
        Some(
            Instr::Load {
                to: _,
                base: _,
                off: _,
            },
        )
        | Some(
            Instr::Store {
                base: _,
                off: _,
                value: _,
            },
        ) => true,
        _ => false,
    }
}

/// The outcome of a task within so many instructions, with how often it enters a promotion-ready
/// block, where it has so often before. There is none where it reads or writes a cell between the
/// second entry and the fifth.
fn stepped(task: Task, code: &Code, entered: u32, steps: u16) -> Option<(Outcome, u32)>
    requires { RunsOn code.now task }
{
    if steps == 0 {
        return None;
    }
    let (label, at) = task.at();
    let block = code.blocks().get(label as usize)?;
    let enters = at == 0 && is_ready(block);
    let entries = if enters {
        entered.saturating_add(1)
    } else {
        entered
    };
    if 2 <= entries && entries < 5 && is_of_cell(block, at) {
        return None;
    }
    match run_task(task, code, PACE, 1).turn {
        Turn::Pause(next) => stepped(next, code, entries, steps - 1),
        Turn::Halted(outcome) => Some((outcome, entries)),
        Turn::NeedRecord(_)
        | Turn::Forked {
            left: _,
            rest: _,
            child: _,
            rec: _,
        }
        | Turn::Arrived {
            rec: _,
            side: _,
            out: _,
        }
        | Turn::Stuck {
            fault: _,
            block: _,
            at: _,
        }
        | Turn::NoMemory => None,
    }
}

#[test]
fn iterations_of_a_leaf_loop_touch_no_cell(rt: HostRuntime) -> Result<(), Fail> {
    let program = checked(rt.alloc(), SUM).ok_or("a program")?;
    let code = lower(rt.alloc(), &program)?;
    let tables = columns(rt.alloc(), code.tables(), &[])?;
    let task = Task::first(rt.alloc(), &code, tables, 1000)?;
    let (outcome, entries) = stepped(task, &code, 0, 999).ok_or("an outcome")?;
    assert!(&rt; outcome.output.items() == b"36\n".as_slice());
    assert!(&rt; outcome.stop == Stop::Done);
    assert_eq!(&rt; entries, 8);
    Ok(())
}
