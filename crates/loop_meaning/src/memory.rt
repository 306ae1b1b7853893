// What the evaluator holds, and its small steps.

ghost use Rattle.std.specs.Prelude.{◌≡◌, ◌≤◌, take, IfOk, OnOk};
ghost use Rattle.loop_meaning.specs.State.{tick, declare, assign, State};
ghost use Rattle.loop_meaning.specs.Ends.{state_of, Ends};

use crate::value::Variable;
use std::alloc::Global;
use tp_value::{Items, MAX_FUEL, NoMemory, Stop, Table};

/// The visible variables, the tables, the output and the ticks so far.
#[derive(Drop)]
pub struct Memory {
    /// The variables in the order of their declarations.
    pub vars: Vec<Variable>,
    /// The tables in the order of theirs.
    pub tables: Vec<Table>,
    /// What was printed.
    pub output: Vec<u8>,
    /// The ticks counted.
    pub ticks: u64,
}

/// Counts a tick, or stops where the fuel is spent.
pub fn count_tick(memory: &mut Memory, fuel: u64) -> Stop
    requires { fuel ≤ MAX_FUEL }
    ensures { Ends (tick fuel (state_of memory.old)) result (state_of memory.new) }
{
    if memory.ticks < fuel {
        memory.ticks += 1;
        Stop::Done
    } else {
        memory.ticks = fuel + 1;
        Stop::NoFuel
    }
}

/// Makes a variable visible.
pub fn declare(alloc: Global, memory: &mut Memory, variable: &[u8], n: i64) -> Result<(), NoMemory>
    ensures { OnOk result
        (let s = state_of memory.old in state_of memory.new
        ≡ record s { vars = declare s.vars variable.now n }) }
{
    let name = Items::new(variable.to_vec(alloc)?);
    memory.vars.push(Variable { name, value: n })?;
    Ok(())
}

fn assign_in(vars: &mut [Variable], variable: &[u8], n: i64)
    ensures { vars.new ≡ assign vars.old variable.now n }
{
    for i in 0..vars.len() {
        if vars[i].name.items() == variable {
            vars[i].value = n;
            return;
        }
    }
}

/// Sets a variable.
pub fn assign(memory: &mut Memory, variable: &[u8], n: i64)
    ensures { let s = state_of memory.old in state_of memory.new
        ≡ record s { vars = assign s.vars variable.now n } }
{
    assign_in(&mut memory.vars, variable, n);
}

/// Leaves the first variables visible.
pub fn leave(memory: &mut Memory, count: usize)
    ensures { let s = state_of memory.old in state_of memory.new
        ≡ record s { vars = take count s.vars } }
{
    memory.vars.truncate(count);
}
