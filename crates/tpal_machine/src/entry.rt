// Entering a block.

ghost use Rattle.std.specs.Prelude.{◌≡◌, length};
ghost use Rattle.tpal_machine.specs.Answer.{IsFlow};
ghost use Rattle.tpal_machine.specs.Effect as effect;
ghost use Rattle.tpal_machine.specs.Memory.{FlowTakes};
ghost use Rattle.tpal_machine.specs.Seen.{state_of, Keeps};
ghost use Rattle.tpal_machine.specs.Step.{enters, entered_ready, at_block};

use crate::flow::Flow;
use crate::task::Machine;
use tpal_syntax::{Code, Note, Word};

/// How often a task may be diverted.
#[derive(Clone, Copy, PartialEq, Eq, Debug)]
pub struct Pace {
    /// The instructions between two diversions, at least 1.
    pub heartbeat: u64,
    /// Whether a diversion is allowed.
    pub allowed: bool,
}

fn go_to(machine: &mut Machine, label: u32)
    ensures effect { state_of machine.new ≡ at_block label (state_of machine.old) }
    ensures kept { Keeps machine.old machine.new }
{
    machine.block = label;
    machine.at = 0;
}

/// Control enters a promotion-ready block.
fn enter_ready(machine: &mut Machine, code: &Code, pace: Pace, label: u32, handler: u32) -> Flow
    ensures flow { IsFlow code.now
        (entered_ready pace.heartbeat pace.allowed label handler (state_of machine.old)) result
        (state_of machine.new) }
    ensures room { FlowTakes result ⊥ }
    ensures kept { Keeps machine.old machine.new }
{
    let marked = machine.stack.oldest().is_some();
    if machine.beat.enter(pace.heartbeat, marked, pace.allowed) {
        machine.registers[30] = Word::Label(label);
        go_to(machine, handler);
        Flow::Beats
    } else {
        go_to(machine, label);
        Flow::Goes
    }
}

/// Control enters a block.
pub(crate) fn enter(machine: &mut Machine, code: &Code, pace: Pace, label: u32) -> Flow
    ensures flow { IsFlow code.now (enters code.now pace.heartbeat pace.allowed label
        (state_of machine.old))
        result (state_of machine.new) }
    ensures room { FlowTakes result ⊥ }
    ensures kept { Keeps machine.old machine.new }
{
    match code.blocks().get(label as usize) {
        None => {
            go_to(machine, label);
            Flow::Goes
        }
        Some(block) => match &block.note {
            Note::Plain | Note::Target(_) => {
                go_to(machine, label);
                Flow::Goes
            }
            Note::Ready(handler) => enter_ready(machine, code, pace, label, *handler),
        },
    }
}
