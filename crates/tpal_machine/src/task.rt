// A task: what it holds between two instructions.

ghost use Rattle.std.specs.Prelude.{◌≡◌, ◌≤◌, IfOk};
ghost use Rattle.tpal_machine.specs.State.{first_state};

use crate::ends::{Goal, Tie, Wait};
use crate::turn::told;
use beat_count::{Beat, Fuel};
use slices::Held;
use stack_marks::Stack;
use std::alloc::Global;
use std::marker::Model;
use tp_value::{MAX_FUEL, NoMemory};
use tpal_syntax::{Code, Word};

/// What a task holds. The machine changes it in place.
#[derive(Drop)]
pub(crate) struct Machine {
    pub(crate) registers: [Word; 32],
    pub(crate) stack: Stack,
    pub(crate) tables: Vec<Held>,
    pub(crate) made: Vec<u8>,
    pub(crate) fuel: Fuel,
    pub(crate) beat: Beat,
    pub(crate) output: Vec<u8>,
    pub(crate) goal: Goal,
    pub(crate) block: u32,
    pub(crate) at: usize,
    pub(crate) pending: Option<Tie>,
    pub(crate) met: Option<Tie>,
    pub(crate) waiting: Option<Wait>,
}

/// A task. Contracts see it as its `State`. What it holds stands in a box, since tasks are handed
/// over at every fork, claim and turn.
#[derive(Drop)]
pub struct Task {
    pub(crate) machine: Box<Machine>,
}

impl Model for Task {
    ghost use Rattle.std.specs.Coded.{codes};
    ghost use Rattle.slices.specs.Holding.{holding_code};
    ghost use Rattle.tpal_machine.specs.State.{State};

    ghost Value = { State };

    ghost coded = { Prim.hlevel (codes, holding_code) };

    ghost use Rattle.tpal_machine.specs.Seen.{state_of, AreLow};

    ghost view = { λ task. state_of task.machine.value };

    ghost invariant = { λ task. AreLow task.machine.value };
}

impl Task {
    ghost use Rattle.std.specs.Prelude.{◌≡◌, ◌≤◌, ◌-◌, ◌^◌, IfOk, length, min};
    ghost use Rattle.tpal_machine.specs.Belonging.{RunsOn};
    ghost use Rattle.tpal_machine.specs.State.{first_state};

    /// The first task of a run: at the first instruction of a code, with 0 in register 31 and a
    /// held table for each of the code's: whole for an input, of size 0 by 0 for one that is made.
    /// The fuel is in ticks.
    pub fn first(alloc: Global, code: &Code, tables: Vec<Held>, fuel: u64) -> Result<Task, NoMemory>
        requires fuel { fuel ≤ MAX_FUEL }
        requires tables { length tables.items ≡ length code.now.tables }
        ensures first { IfOk result (λ task. task ≡ first_state tables.items fuel) }
        ensures belongs { IfOk result (RunsOn code.now) }
    {
        let _blocks = code.blocks();
        first_task(alloc, tables, fuel)
    }

    /// The block of the next instruction, and how many instructions of that block stand before it;
    /// a position beyond 2^32 - 1, to which no run comes, is told as that number. It takes no
    /// memory.
    pub fn at(&self) -> (u32, u32)
        ensures block { result.0 ≡ self.now.block }
        ensures position { result.1 ≡ min self.now.at (2 ^ 32 - 1) }
    {
        (self.machine.block, told(self.machine.at))
    }
}

fn first_task(alloc: Global, tables: Vec<Held>, fuel: u64) -> Result<Task, NoMemory>
    requires { fuel ≤ MAX_FUEL }
    ensures { IfOk result (λ task. task ≡ first_state tables.items fuel) }
{
    let mut registers = [Word::Nil; 32];
    registers[31] = Word::Int(0);
    let machine = Box::new(
        alloc,
        Machine {
            registers,
            stack: Stack::new(alloc, 0),
            tables,
            made: Vec::new(alloc),
            fuel: Fuel::new(fuel),
            beat: Beat::new(),
            output: Vec::new(alloc),
            goal: Goal::Root,
            block: 0,
            at: 0,
            pending: None,
            met: None,
            waiting: None,
        },
    )?;
    Ok(Task { machine })
}
