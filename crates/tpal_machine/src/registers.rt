// Instructions on registers.

ghost use Rattle.std.specs.Prelude.{◌≡◌, ◌<◌};
ghost use Rattle.tpal_machine.specs.Answer.{Gives};
ghost use Rattle.tpal_machine.specs.Effect as effect;
ghost use Rattle.tpal_machine.specs.Fit.{IsOperand};
ghost use Rattle.tpal_machine.specs.Ops.Anywhere.{Stays, Becomes};
ghost use Rattle.tpal_machine.specs.Seen.{Keeps, state_of};

use crate::faults::Fault;
use crate::task::Machine;
use crate::words::{calculated, value_of};
use tpal_syntax::{Alu, Value};

/// `rA := v`.
pub(crate) fn move_value(machine: &mut Machine, to: u8, value: Value)
    requires to { to < 32 }
    requires value { IsOperand value }
    ensures effect { state_of machine.new ≡ effect.move to value (state_of machine.old) }
    ensures anywhere { Becomes (effect.move to value) machine.old machine.new }
    ensures stays { Stays machine.old machine.new }
    ensures kept { Keeps machine.old machine.new }
{
    machine.registers[to as usize] = value_of(&machine.registers, value);
}

/// `rA := rB OP v`.
pub(crate) fn calc(
    machine: &mut Machine,
    to: u8,
    left: u8,
    alu: Alu,
    right: Value,
) -> Result<(), Fault>
    requires to { to < 32 }
    requires left { left < 32 }
    requires right { IsOperand right }
    ensures effect { Gives (effect.calc to left alu right (state_of machine.old)) result
        (state_of machine.new) }
    ensures kept { Keeps machine.old machine.new }
{
    let right = value_of(&machine.registers, right);
    let word = calculated(alu, machine.registers[left as usize], right)?;
    machine.registers[to as usize] = word;
    Ok(())
}
