// One step of a task.

ghost use Rattle.std.specs.Prelude.{◌≡◌, ◌<◌, ◌^◌, ℕ, IfSome, MatchOption, None, Some, Err, length};
ghost use Rattle.std.specs.Prelude.{slice_get};
ghost use Rattle.tpal_machine.specs.Answer.{Gives, GivesOr, GivesProgress, IsFlow};
ghost use Rattle.tpal_machine.specs.Effect as effects;
ghost use Rattle.tpal_machine.specs.Effect.{Effect, Halting};
ghost use Rattle.tpal_syntax.specs.Conditions.{IsCode};
ghost use Rattle.tpal_machine.specs.Fit.{IsInstr, IsTerm};
ghost use Rattle.tpal_machine.specs.Memory.{FlowTakes, InstrTakes, NextTakes};
ghost use Rattle.tpal_machine.specs.Reading.{block_at};
ghost use Rattle.tpal_machine.specs.Seen.{state_of, Keeps, AreLow};
ghost use Rattle.tpal_machine.specs.State.{State};
ghost use Rattle.tpal_machine.specs.Step.{executed, finished, if_jump, jump, halt, is_end, join};
ghost use Rattle.tpal_machine.specs.Step.{join_end, join_met, leave_end, leave, step, stepped};
ghost use Rattle.tpal_machine.specs.Step.{asked, halting};
ghost use Rattle.tpal_machine.specs.declared.flow.Progress.TheVariants as ways;
ghost use Rattle.tpal_machine.specs.declared.flow.Trouble.TheVariants as troubles;
ghost use Rattle.slices.specs.Holding.{Holding};
ghost use Rattle.std.specs.Prelude.{List};
ghost use Rattle.tpal_syntax.specs.declared.instructions.Instr.{Instr};
ghost use Rattle.tpal_syntax.specs.Listing.{Listing};

use crate::ends::{Goal, Tie};
use crate::entry::{Pace, enter};
use crate::faults::Fault;
use crate::flow::{Flow, Progress, Trouble};
use crate::making::make;
use crate::output::{emit, print};
use crate::records::jralloc;
use crate::registers::{calc, move_value};
use crate::stack::{load, prmdrop, prmempty, prmpop, prmpush, prmsplit, salloc, sfree, store};
use crate::stops::{stops, tick, trap};
use crate::tables::{cols, fetch, put, rows};
use crate::task::Machine;
use crate::words::value_of;
use tp_value::Stop;
use tpal_syntax::{Block, Code, Instr, Term, Word};

fn flow_of(done: Result<(), Fault>) -> Flow
    ensures flow { (code : Listing) (wanted : Effect) (after : State)
        → Gives wanted done after
        → IsFlow code (stepped wanted) result after }
    ensures room { FlowTakes result ⊥ }
{
    match done {
        Ok(()) => Flow::Goes,
        Err(fault) => Flow::Stuck(fault),
    }
}

fn flow_or(done: Result<(), Trouble>) -> Flow
    ensures flow { (code : Listing) (wanted : Effect) (after : State)
        → GivesOr wanted done after
        → IsFlow code (stepped wanted) result after }
    ensures memory { (instr : Instr) (held : List Holding)
        → (done ≡ Err troubles.NoMemory → InstrTakes instr held)
        → FlowTakes result (InstrTakes instr held) }
{
    match done {
        Ok(()) => Flow::Goes,
        Err(Trouble::Stuck(fault)) => Flow::Stuck(fault),
        Err(Trouble::NoMemory) => Flow::NoMemory,
    }
}

fn asking(done: Result<(), Fault>) -> Flow
    ensures flow { (code : Listing) (wanted : Effect) (after : State)
        → Gives wanted done after
        → IsFlow code (asked wanted) result after }
    ensures room { FlowTakes result ⊥ }
{
    match done {
        Ok(()) => Flow::Asks,
        Err(fault) => Flow::Stuck(fault),
    }
}

fn stopping(came: Progress) -> Flow
    ensures flow { (code : Listing) (wanted : Halting) (after : State)
        → GivesProgress wanted came after
        → IsFlow code (halting code wanted) result after }
    ensures room { (came ≡ ways.NoMemory → ⊥) → FlowTakes result ⊥ }
{
    match came {
        Progress::Goes => Flow::Goes,
        Progress::Stops(stop) => Flow::Stops(stop),
        Progress::Fails(fault) => Flow::Stuck(fault),
        Progress::NoMemory => Flow::NoMemory,
    }
}

/// `if-jump rA, @l`.
fn jump_if(machine: &mut Machine, code: &Code, pace: Pace, test: Word, label: u32) -> Flow
    ensures flow { IsFlow code.now
        (if_jump code.now pace.heartbeat pace.allowed test label (state_of machine.old)) result
        (state_of machine.new) }
    ensures room { FlowTakes result ⊥ }
    ensures kept { Keeps machine.old machine.new }
{
    match test {
        Word::Int(number) => {
            if number == 0 {
                Flow::Goes
            } else {
                enter(machine, code, pace, label)
            }
        }
        Word::Label(_) | Word::Rec(_) | Word::Nil => Flow::Stuck(Fault::NotInt),
    }
}

/// One instruction, of a task that has counted it and stands behind it.
#[tactic(auto, using(crate::proofs::Memory::takes_any))]
pub(crate) fn execute(machine: &mut Machine, code: &Code, pace: Pace, instr: &Instr) -> Flow
    requires fits { IsInstr (length machine.old.tables.items) instr.now }
    requires low { AreLow machine.old }
    ensures flow { IsFlow code.now
        (executed code.now pace.heartbeat pace.allowed instr.now (state_of machine.old)) result
        (state_of machine.new) }
    ensures memory { FlowTakes result (InstrTakes instr.now machine.old.tables.items) }
    ensures kept { Keeps machine.old machine.new }
{
    match *instr {
        Instr::Move { to, value } => {
            move_value(machine, to, value);
            Flow::Goes
        }
        Instr::Calc {
            to,
            left,
            alu,
            right,
        } => flow_of(calc(machine, to, left, alu, right)),
        Instr::IfJump { test, label } => {
            let word = machine.registers[test as usize];
            jump_if(machine, code, pace, word, label)
        }
        Instr::Load { to, base, off } => flow_of(load(machine, to, base, off)),
        Instr::Store { base, off, value } => flow_of(store(machine, base, off, value)),
        Instr::Salloc(cells) => flow_or(salloc(machine, cells)),
        Instr::Sfree(cells) => flow_of(sfree(machine, cells)),
        Instr::PrmPush {
            base,
            off,
            cells,
            split,
        } => flow_of(prmpush(machine, base, off, cells, split)),
        Instr::PrmPop { base, off } => flow_of(prmpop(machine, base, off)),
        Instr::PrmDrop => flow_of(prmdrop(machine)),
        Instr::PrmEmpty(r) => {
            prmempty(machine, r);
            Flow::Goes
        }
        Instr::PrmSplit { base, split } => flow_of(prmsplit(machine, base, split)),
        Instr::JrAlloc { to, target } => asking(jralloc(machine, code, to, target)),
        Instr::Fork { rec, child } => Flow::Forks { rec, child },
        Instr::Fetch {
            to,
            table,
            row,
            col,
        } => flow_of(fetch(machine, to, table, row, col)),
        Instr::Put {
            table,
            row,
            col,
            value,
        } => flow_or(put(machine, table, row, col, value)),
        Instr::Rows { to, table } => {
            rows(machine, to, table);
            Flow::Goes
        }
        Instr::Cols { to, table } => {
            cols(machine, to, table);
            Flow::Goes
        }
        Instr::Make {
            table,
            rows,
            cols,
            place,
        } => stopping(make(machine, code, table, rows, cols, place)),
        Instr::Tick => stopping(tick(machine)),
        Instr::Trap { kind, place } => stopping(trap(machine, kind, place)),
        Instr::Print(r) => flow_or(print(machine, r)),
        Instr::Emit(table) => flow_or(emit(machine, table)),
    }
}

/// The end of a side, or of the whole run.
fn done(machine: &mut Machine) -> Flow
    ensures flow { (code : Listing)
        → IsFlow code
        (halting code (effects.stops machine.old.pending Stop.Done (state_of machine.old))) result
        (state_of machine.new) }
    ensures room { FlowTakes result ⊥ }
    ensures kept { Keeps machine.old machine.new }
{
    stopping(stops(machine, Stop::Done))
}

/// `halt`.
fn halt_task(machine: &mut Machine, code: &Code) -> Flow
    ensures flow { IsFlow code.now (halt machine.old.goal code.now (state_of machine.old)) result
        (state_of machine.new) }
    ensures room { FlowTakes result ⊥ }
    ensures kept { Keeps machine.old machine.new }
{
    match machine.goal {
        Goal::Root => done(machine),
        Goal::At {
            rec: _,
            side: _,
            target: _,
        } => Flow::Stuck(Fault::NotRoot),
    }
}

/// Whether a record is the one at which a task ends.
fn is_end(goal: Goal, number: u32) -> bool
    ensures { result ≡ is_end goal number }
{
    match goal {
        Goal::Root => false,
        Goal::At {
            rec,
            side: _,
            target: _,
        } => rec == number,
    }
}

/// A join under a record that isn't met: the end of a side, where it is the side's.
fn join_end(machine: &mut Machine, code: &Code, number: u32) -> Flow
    ensures flow { IsFlow code.now (join_end code.now number (state_of machine.old)) result
        (state_of machine.new) }
    ensures room { FlowTakes result ⊥ }
    ensures kept { Keeps machine.old machine.new }
{
    if is_end(machine.goal, number) {
        done(machine)
    } else {
        Flow::Stuck(Fault::WrongRecord)
    }
}

/// A join under a record that both sides have met.
fn join_met(machine: &mut Machine, code: &Code, pace: Pace, tie: Tie) -> Flow
    ensures flow { IsFlow code.now (join_met code.now pace.heartbeat pace.allowed tie
        (state_of machine.old))
        result (state_of machine.new) }
    ensures room { FlowTakes result ⊥ }
    ensures kept { Keeps machine.old machine.new }
{
    if machine.pending.is_some() {
        return Flow::Stuck(Fault::Pending);
    }
    machine.met = None;
    enter(machine, code, pace, tie.target)
}

/// `join rA`.
fn join_under(machine: &mut Machine, code: &Code, pace: Pace, word: Word) -> Flow
    ensures flow { IsFlow code.now (join code.now pace.heartbeat pace.allowed word
        (state_of machine.old))
        result (state_of machine.new) }
    ensures room { FlowTakes result ⊥ }
    ensures kept { Keeps machine.old machine.new }
{
    match word {
        Word::Int(_) | Word::Label(_) | Word::Nil => Flow::Stuck(Fault::NotRec),
        Word::Rec(number) => match machine.met {
            None => join_end(machine, code, number),
            Some(tie) => {
                if tie.rec == number {
                    join_met(machine, code, pace, tie)
                } else {
                    join_end(machine, code, number)
                }
            }
        },
    }
}

/// A leave under a record: the end of the side that has it.
fn leave_end(machine: &mut Machine, code: &Code, number: u32, value: Word) -> Flow
    ensures flow { IsFlow code.now (leave_end code.now number value (state_of machine.old)) result
        (state_of machine.new) }
    ensures room { FlowTakes result ⊥ }
    ensures kept { Keeps machine.old machine.new }
{
    if !is_end(machine.goal, number) {
        return Flow::Stuck(Fault::WrongRecord);
    }
    match value {
        Word::Int(number) => stopping(stops(machine, Stop::Left(number))),
        Word::Label(_) | Word::Rec(_) | Word::Nil => Flow::Stuck(Fault::NotInt),
    }
}

/// `leave rA, rB`.
fn leave_under(machine: &mut Machine, code: &Code, word: Word, value: Word) -> Flow
    ensures flow { IsFlow code.now (leave code.now word value (state_of machine.old)) result
        (state_of machine.new) }
    ensures room { FlowTakes result ⊥ }
    ensures kept { Keeps machine.old machine.new }
{
    match word {
        Word::Int(_) | Word::Label(_) | Word::Nil => Flow::Stuck(Fault::NotRec),
        Word::Rec(number) => leave_end(machine, code, number, value),
    }
}

/// `jump v`.
fn jump_to(machine: &mut Machine, code: &Code, pace: Pace, word: Word) -> Flow
    ensures flow { IsFlow code.now (jump code.now pace.heartbeat pace.allowed word
        (state_of machine.old))
        result (state_of machine.new) }
    ensures room { FlowTakes result ⊥ }
    ensures kept { Keeps machine.old machine.new }
{
    match word {
        Word::Label(label) => enter(machine, code, pace, label),
        Word::Int(_) | Word::Rec(_) | Word::Nil => Flow::Stuck(Fault::NotLabel),
    }
}

/// The end of a block, of a task that has counted it. It doesn't matter where in the block the task
/// stands.
pub(crate) fn finish(machine: &mut Machine, code: &Code, pace: Pace, term: Term) -> Flow
    requires fits { IsTerm term }
    ensures flow { IsFlow code.now (finished code.now pace.heartbeat pace.allowed term
        (state_of machine.old))
        result (state_of machine.new) }
    ensures room { FlowTakes result ⊥ }
    ensures kept { Keeps machine.old machine.new }
{
    match term {
        Term::Jump(value) => {
            let word = value_of(&machine.registers, value);
            jump_to(machine, code, pace, word)
        }
        Term::Halt => halt_task(machine, code),
        Term::Join(r) => {
            let word = machine.registers[r as usize];
            join_under(machine, code, pace, word)
        }
        Term::Leave { rec, value } => {
            let word = machine.registers[rec as usize];
            let number = machine.registers[value as usize];
            leave_under(machine, code, word, number)
        }
    }
}

/// The instruction at a position of a block, where there is one.
pub(crate) fn instr_at(block: &Block, at: usize) -> Option<&Instr>
    ensures found { MatchOption result (slice_get block.now.body at ≡ None)
        (λ instr. slice_get block.now.body at ≡ Some instr.now) }
    ensures inside { IfSome result (λ _. at < 2 ^ 63) }
{
    block.body.items().get(at)
}

/// One step of a task that stands in this block.
pub(crate) fn step(machine: &mut Machine, code: &Code, pace: Pace, block: &Block) -> Flow
    requires block { block_at code.now machine.old.block ≡ Some block.now }
    requires right { IsCode code.now.tables code.now.blocks }
    requires tables { length machine.old.tables.items ≡ length code.now.tables }
    requires low { AreLow machine.old }
    ensures flow { IsFlow code.now
        (step code.now pace.heartbeat pace.allowed (state_of machine.old))
        result
        (state_of machine.new) }
    ensures memory { FlowTakes result (NextTakes code.now (state_of machine.old)) }
    ensures kept { Keeps machine.old machine.new }
{
    machine.beat.count_one();
    match instr_at(block, machine.at) {
        Some(instr) => {
            machine.at += 1;
            execute(machine, code, pace, instr)
        }
        None => finish(machine, code, pace, block.term),
    }
}
