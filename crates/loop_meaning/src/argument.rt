// Functions, their arguments, and how a call ends.

ghost use Rattle.std.specs.Prelude.{◌≡◌, IfOk, pos};
ghost use Rattle.loop_meaning.specs.Calls.{bound};
ghost use Rattle.loop_meaning.specs.Ends.{state_of, NumbersOf};

use crate::expression::value_of;
use crate::memory::Memory;
use crate::value::{Answer, Variable};
use loop_syntax::{Expr, Name};
use std::alloc::Global;
use tp_value::{Items, NoMemory, Place, Stop, TrapKind};

/// The end of a call: its stop, and its value where that is done.
#[derive(Drop)]
pub struct Returned {
    /// How it ended.
    pub stop: Stop,
    /// Its value, or 0 where it stopped early.
    pub value: i64,
}

/// The end of a call that stopped early.
pub fn stopped(stop: Stop) -> Returned
    ensures stop { result.stop ≡ stop }
    ensures value { result.value ≡ pos 0 }
{
    Returned { stop, value: 0 }
}

/// The numbers of a list of arguments, or the first trap.
#[derive(Drop)]
pub enum Numbers {
    /// The numbers in order.
    All(Vec<i64>),
    /// The trap.
    Traps(TrapKind, Place),
}

/// The numbers of a list of arguments, from left to right.
pub fn numbers_of(alloc: Global, memory: &Memory, arguments: &[Expr]) -> Result<Numbers, NoMemory>
    ensures { IfOk result (λ ns. NumbersOf arguments.now (state_of memory.now) ns) }
{
    let mut ns = Vec::new(alloc);
    for e in arguments {
        match value_of(memory, e) {
            Answer::Number(n) => ns.push(n)?,
            Answer::Traps(kind, place) => return Ok(Numbers::Traps(kind, place)),
        }
    }
    Ok(Numbers::All(ns))
}

/// The parameters with their arguments.
pub fn bound(alloc: Global, params: &[Name], arguments: &[i64]) -> Result<Vec<Variable>, NoMemory>
    ensures { IfOk result (λ v. v.items ≡ bound params.now arguments.now) }
{
    let mut vars = Vec::new(alloc);
    for i in 0..params.len() {
        if i >= arguments.len() {
            return Ok(vars);
        }
        let name = Items::new(params[i].text.to_vec(alloc)?);
        vars.push(Variable {
            name,
            value: arguments[i],
        })?;
    }
    Ok(vars)
}
