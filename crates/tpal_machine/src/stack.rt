// Instructions on the stack and its marks.

ghost use Rattle.std.specs.Bool.{OnTrue, OnFalse};
ghost use Rattle.std.specs.Prelude.{◌≡◌, ◌≢◌, ◌<◌, ◌+ℤ◌, ◌≤ℤ◌, ◌^◌, IsSome, IfSome, OnErr, pos, ℤ};
ghost use Rattle.tpal_machine.specs.Answer.{Gives, GivesOr};
ghost use Rattle.tpal_machine.specs.Effect as effect;
ghost use Rattle.tpal_machine.specs.Fit.{IsOperand, stack_fault};
ghost use Rattle.tpal_machine.specs.Ops.Anywhere.{Did, Does, DoesOr, Stays};
ghost use Rattle.tpal_machine.specs.Seen.{state_of, Keeps, AreLow};
ghost use Rattle.tpal_machine.specs.State.{State};
ghost use Rattle.stack_marks.specs.Causes.{UnmarkCause};
ghost use Rattle.stack_marks.specs.Stacks.{word_at};

use crate::faults::Fault;
use crate::flow::Trouble;
use crate::task::Machine;
use crate::words::{number_of, value_of};
use stack_marks::{Mark, Stack, StackFault, in_order};
use tpal_syntax::{Value, Word};

/// The position so many cells above another, in a stack. A sum above all numbers wraps to one below
/// 0, where no stack has a cell either.
pub(crate) fn above(stack: &Stack, from: i64, off: u16) -> i64
    ensures cell { word_at stack.now result ≡ word_at stack.now (from +ℤ pos off) }
    ensures place { IsSome (word_at stack.now result) → result ≡ from +ℤ pos off }
{
    in_order(stack);
    from.wrapping_add(i64::from(off))
}

/// `rA := mem[rB+n]`.
#[inline(always)]
#[tactic(auto, using(crate::proofs::Stacks::cell_facts))]
pub(crate) fn load(machine: &mut Machine, to: u8, base: u8, off: u16) -> Result<(), Fault>
    requires to { to < 32 }
    requires base { base < 32 }
    ensures effect { Gives (effect.load to base off (state_of machine.old)) result
        (state_of machine.new) }
    ensures anywhere { Does (effect.load to base off) machine.old result machine.new }
    ensures refused { OnErr result (machine.new ≡ machine.old) }
    ensures stays { Stays machine.old machine.new }
    ensures kept { Keeps machine.old machine.new }
{
    let from = number_of(machine.registers[base as usize])?;
    match machine.stack.get(above(&machine.stack, from, off)) {
        Ok(word) => {
            machine.registers[to as usize] = word;
            Ok(())
        }
        Err(_) => Err(Fault::OutOfRange),
    }
}

/// `mem[rA+n] := v`.
#[inline(always)]
#[tactic(auto, using(crate::proofs::Stacks::cell_facts))]
pub(crate) fn store(machine: &mut Machine, base: u8, off: u16, value: Value) -> Result<(), Fault>
    requires base { base < 32 }
    requires value { IsOperand value }
    ensures effect { Gives (effect.store base off value (state_of machine.old)) result
        (state_of machine.new) }
    ensures anywhere { Does (effect.store base off value) machine.old result machine.new }
    ensures refused { OnErr result (machine.new ≡ machine.old) }
    ensures stays { Stays machine.old machine.new }
    ensures kept { Keeps machine.old machine.new }
{
    let from = number_of(machine.registers[base as usize])?;
    let word = value_of(&machine.registers, value);
    let at = above(&machine.stack, from, off);
    match machine.stack.set(at, word) {
        Ok(()) => Ok(()),
        Err(_) => Err(Fault::OutOfRange),
    }
}

/// `salloc n`.
pub(crate) fn salloc(machine: &mut Machine, cells: u16) -> Result<(), Trouble>
    ensures effect { GivesOr (effect.salloc cells (state_of machine.old)) result
        (state_of machine.new) }
    ensures anywhere { DoesOr (effect.salloc cells) machine.old result machine.new }
    ensures refused { OnErr result (machine.new ≡ machine.old) }
    ensures stays { Stays machine.old machine.new }
    ensures kept { Keeps machine.old machine.new }
{
    match machine.stack.push(u32::from(cells)) {
        Ok(()) => Ok(()),
        Err(StackFault::TooLong) => Err(Trouble::Stuck(Fault::TooLong)),
        Err(
            StackFault::OutOfRange
            | StackFault::NotMarked
            | StackFault::MarkedCell
            | StackFault::MarkOrder
            | StackFault::NoMemory,
        ) => Err(Trouble::NoMemory),
    }
}

/// `salloc n`. Where it answers false nothing has changed. It stands apart, since it calls others.
#[inline(never)]
pub(crate) fn grow(machine: &mut Machine, cells: u16) -> bool
    ensures done { OnTrue result (Did (effect.salloc cells) machine.old machine.new) }
    ensures same { OnFalse result (machine.new ≡ machine.old) }
    ensures stays { Stays machine.old machine.new }
    ensures kept { Keeps machine.old machine.new }
{
    machine.stack.push(u32::from(cells)).is_ok()
}

/// Why a call of the stack that takes no memory is refused.
pub(crate) fn stack_fault(fault: StackFault) -> Fault
    ensures { result ≡ stack_fault fault }
{
    match fault {
        StackFault::OutOfRange | StackFault::NotMarked | StackFault::NoMemory => Fault::OutOfRange,
        StackFault::MarkedCell => Fault::MarkedCell,
        StackFault::MarkOrder => Fault::MarkOrder,
        StackFault::TooLong => Fault::TooLong,
    }
}

/// `sfree n`.
#[tactic(auto, using(crate::proofs::Refusals::sfree_goes, crate::proofs::Refusals::sfree_refused))]
pub(crate) fn sfree(machine: &mut Machine, cells: u16) -> Result<(), Fault>
    ensures effect { Gives (effect.sfree cells (state_of machine.old)) result
        (state_of machine.new) }
    ensures anywhere { Does (effect.sfree cells) machine.old result machine.new }
    ensures refused { OnErr result (machine.new ≡ machine.old) }
    ensures stays { Stays machine.old machine.new }
    ensures kept { Keeps machine.old machine.new }
{
    match machine.stack.pop(u32::from(cells)) {
        Ok(()) => Ok(()),
        Err(fault) => Err(stack_fault(fault)),
    }
}

/// `prmpush mem[rA+c], n, @l`.
#[inline(always)]
#[tactic(auto, using(crate::proofs::NoNumbers::on_number_none, crate::proofs::Refusals::below_all))]
pub(crate) fn prmpush(
    machine: &mut Machine,
    base: u8,
    off: u16,
    cells: u16,
    split: u32,
) -> Result<(), Fault>
    requires { base < 32 }
    ensures effect { Gives (effect.prmpush base off cells split (state_of machine.old)) result
        (state_of machine.new) }
    ensures anywhere { Does (effect.prmpush base off cells split) machine.old result machine.new }
    ensures refused { OnErr result (machine.new ≡ machine.old) }
    ensures stays { IsSome (effect.oldest machine.old.stack) → Stays machine.old machine.new }
    ensures kept { Keeps machine.old machine.new }
{
    let from = number_of(machine.registers[base as usize])?;
    if from < 0 {
        return Err(Fault::OutOfRange);
    }
    mark_from(machine, magnitude(from), off, cells, split)
}

fn magnitude(number: i64) -> u64
    requires { pos 0 ≤ℤ number }
    ensures number { pos result ≡ number }
    ensures fits { result < 2 ^ 63 }
{
    number as u64
}

/// A mark for the work from a position on.
#[inline(always)]
#[tactic(auto, using(crate::proofs::Stacks::mark_facts))]
fn mark_from(
    machine: &mut Machine,
    base: u64,
    off: u16,
    cells: u16,
    split: u32,
) -> Result<(), Fault>
    requires { base < 2 ^ 63 }
    ensures effect { Gives (effect.with_mark_from (state_of machine.old) (pos base) off cells split)
        result
        (state_of machine.new) }
    ensures anywhere { Does (λ state. effect.with_mark_from state (pos base) off cells split)
        machine.old result machine.new }
    ensures refused { OnErr result (machine.new ≡ machine.old) }
    ensures stays { IsSome (effect.oldest machine.old.stack) → Stays machine.old machine.new }
    ensures kept { Keeps machine.old machine.new }
{
    in_order(&machine.stack);
    let mark = Mark {
        at: base + u64::from(off),
        base,
        cells: u64::from(cells),
        split,
    };
    match machine.stack.mark(mark) {
        Ok(()) => Ok(()),
        Err(fault) => Err(stack_fault(fault)),
    }
}

/// `prmpop mem[rA+c]`.
#[tactic(auto, using(crate::proofs::NoNumbers::on_number_none))]
pub(crate) fn prmpop(machine: &mut Machine, base: u8, off: u16) -> Result<(), Fault>
    requires { base < 32 }
    ensures effect { Gives (effect.prmpop base off (state_of machine.old)) result
        (state_of machine.new) }
    ensures kept { Keeps machine.old machine.new }
{
    let from = number_of(machine.registers[base as usize])?;
    unmark_from(machine, from, off)
}

/// No mark so many cells above a position.
#[tactic(auto, using(crate::proofs::Stacks::beyond_the_top))]
pub(crate) fn unmark_from(machine: &mut Machine, from: i64, off: u16) -> Result<(), Fault>
    ensures effect { Gives (effect.without_mark (from +ℤ pos off) (state_of machine.old)) result
        (state_of machine.new) }
    ensures anywhere { Does (effect.without_mark (from +ℤ pos off)) machine.old result machine.new }
    ensures refused { OnErr result (machine.new ≡ machine.old) }
    ensures stays { IfSome (effect.oldest machine.old.stack) (λ m. pos m.at ≢ from +ℤ pos off)
        → Stays machine.old machine.new }
    ensures kept { Keeps machine.old machine.new }
{
    in_order(&machine.stack);
    match from.checked_add(i64::from(off)) {
        None => Err(Fault::OutOfRange),
        Some(at) => unmark(machine, at),
    }
}

/// No mark at a position.
#[tactic(auto, using(crate::proofs::Stacks::unmark_facts))]
fn unmark(machine: &mut Machine, at: i64) -> Result<(), Fault>
    ensures effect { Gives (effect.without_mark at (state_of machine.old)) result
        (state_of machine.new) }
    ensures anywhere { Does (effect.without_mark at) machine.old result machine.new }
    ensures refused { OnErr result (machine.new ≡ machine.old) }
    ensures stays { IfSome (effect.oldest machine.old.stack) (λ m. pos m.at ≢ at)
        → Stays machine.old machine.new }
    ensures kept { Keeps machine.old machine.new }
{
    match machine.stack.unmark(at) {
        Ok(()) => Ok(()),
        Err(fault) => not_unmarked(fault),
    }
}

#[tactic(auto, using(crate::proofs::Refusals::unmark_none))]
fn not_unmarked(fault: StackFault) -> Result<(), Fault>
    ensures { (state : State) (at : ℤ)
        → UnmarkCause fault state.stack at
        → Gives (effect.without_mark at state) result state }
{
    match fault {
        StackFault::NotMarked => Ok(()),
        StackFault::OutOfRange
        | StackFault::MarkedCell
        | StackFault::MarkOrder
        | StackFault::TooLong
        | StackFault::NoMemory => Err(Fault::OutOfRange),
    }
}

/// `prmdrop`.
#[tactic(auto, using(crate::proofs::Stacks::low_dropped))]
pub(crate) fn prmdrop(machine: &mut Machine) -> Result<(), Fault>
    ensures effect { Gives (effect.prmdrop (state_of machine.old)) result (state_of machine.new) }
    ensures kept { Keeps machine.old machine.new }
{
    match machine.stack.drop_oldest() {
        Some(_) => Ok(()),
        None => Err(Fault::NoMark),
    }
}

/// `prmempty rA`.
pub(crate) fn prmempty(machine: &mut Machine, r: u8)
    requires { r < 32 }
    ensures effect { state_of machine.new ≡ effect.prmempty r (state_of machine.old) }
    ensures kept { Keeps machine.old machine.new }
{
    machine.registers[r as usize] = Word::Int(i64::from(machine.stack.oldest().is_none()));
}

/// `prmsplit rA, rB`.
pub(crate) fn prmsplit(machine: &mut Machine, base: u8, split: u8) -> Result<(), Fault>
    requires base { base < 32 }
    requires split { split < 32 }
    requires low { AreLow machine.old }
    ensures effect { Gives (effect.prmsplit base split (state_of machine.old)) result
        (state_of machine.new) }
    ensures kept { Keeps machine.old machine.new }
{
    match machine.stack.oldest() {
        Some(mark) => {
            machine.registers[base as usize] = Word::Int(mark.base as i64);
            machine.registers[split as usize] = Word::Label(mark.split);
            Ok(())
        }
        None => Err(Fault::NoMark),
    }
}
