// Asking for a join record, and the answer.

ghost use Rattle.std.specs.Prelude.{◌≡◌, ◌<◌, length, IsSome, slice_set};
ghost use Rattle.tpal_machine.specs.Answer.{Gives};
ghost use Rattle.tpal_machine.specs.Belonging.{RunsOn};
ghost use Rattle.tpal_machine.specs.Belongs.{BelongsTo};
ghost use Rattle.tpal_machine.specs.Effect as effect;
ghost use Rattle.tpal_syntax.specs.Listing.{Listing};
ghost use Rattle.tpal_machine.specs.Reading.{register};
ghost use Rattle.tpal_machine.specs.Seen.{state_of, Keeps};

use crate::blocks::is_target;
use crate::ends::{Tie, Wait};
use crate::faults::Fault;
use crate::task::{Machine, Task};
use tp_value::REGISTERS;
use tpal_syntax::{Code, Word};

/// `rA := jralloc @l`: the task waits from here on.
pub(crate) fn jralloc(machine: &mut Machine, code: &Code, to: u8, target: u32) -> Result<(), Fault>
    ensures effect { Gives (effect.jralloc code.now to target (state_of machine.old)) result
        (state_of machine.new) }
    ensures kept { Keeps machine.old machine.new }
{
    if machine.pending.is_some() {
        return Err(Fault::Pending);
    }
    if !is_target(code, target) {
        return Err(Fault::BadTarget);
    }
    machine.waiting = Some(Wait { to, target });
    Ok(())
}

/// What a register holds; nothing where there is no such register.
pub(crate) fn register(registers: &[Word; 32], r: u8) -> Word
    ensures { result ≡ register registers.now r }
{
    match registers.get(r as usize) {
        Some(word) => *word,
        None => Word::Nil,
    }
}

/// Puts a word into a register, where there is such a register.
#[tactic(auto, using(crate::proofs::Lists::set_beyond))]
pub(crate) fn set_register(registers: &mut [Word; 32], r: u8, word: Word)
    ensures { registers.new ≡ slice_set registers.old r word }
{
    if r < REGISTERS {
        registers[r as usize] = word;
    }
}

/// Gives a task that waits at a `jralloc` the record that it asked for, or none. It takes no
/// memory.
pub fn answer(task: Task, rec: Option<u32>) -> Task
    requires waits { IsSome task.waiting }
    ensures answered { result ≡ effect.answered rec task }
    ensures belongs { (code : Listing) → BelongsTo code task → RunsOn code result }
{
    given(task, rec)
}

fn given(task: Task, rec: Option<u32>) -> Task
    ensures { result ≡ effect.answered rec task }
{
    let Task { machine } = task;
    match machine.waiting {
        None => Task { machine },
        Some(wait) => Task {
            machine: answered(machine, wait, rec),
        },
    }
}

fn answered(machine: Box<Machine>, wait: Wait, rec: Option<u32>) -> Box<Machine>
    ensures { state_of result.value ≡ effect.with_answer (Some wait) rec (state_of machine.value) }
{
    let mut machine = machine;
    machine.waiting = None;
    match rec {
        None => {
            set_register(&mut machine.registers, wait.to, Word::Nil);
            machine
        }
        Some(rec) => {
            set_register(&mut machine.registers, wait.to, Word::Rec(rec));
            machine.pending = Some(Tie {
                rec,
                target: wait.target,
            });
            machine
        }
    }
}
