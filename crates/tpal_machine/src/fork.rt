// The fork.

ghost use Rattle.std.specs.Prelude.{◌≡◌, ◌≤◌, ◌^◌, [], All, IfOk, IfErr, Ok, Result, pos};
ghost use Rattle.tpal_syntax.specs.declared.words.Word.TheVariants as words;
ghost use Rattle.stack_marks.specs.Causes.{CutCause};
ghost use Rattle.stack_marks.specs.Stacks.{StackValue};
ghost use Rattle.tpal_machine.specs.Answer.{FailsAs, forked_state};
ghost use Rattle.tpal_machine.specs.Cut as cutting;
ghost use Rattle.tpal_machine.specs.Seen.{rest_state, state_of, AreLow, ArePartsSound};
ghost use Rattle.tpal_machine.specs.Seen.{IsRestSound};

use crate::blocks::{carries_of, kind_of};
use crate::cut::{TableCut, carried, cut_tables};
use crate::ends::{Goal, SideName, Tie};
use crate::faults::Fault;
use crate::flow::Trouble;
use crate::parts::ForkParts;
use crate::records::register;
use crate::rest::Kept;
use crate::task::Machine;
use beat_count::{Beat, Fuel};
use stack_marks::{Cut, Mark, Stack, StackFault};
use std::alloc::{AllocError, Global};
use std::mem::replace;
use tpal_syntax::{Code, Word};

fn copy_of(alloc: Global, made: &[u8]) -> Result<Vec<u8>, AllocError>
    ensures { IfOk result (λ copy. copy.items ≡ made.now) }
{
    Vec::from_slice(alloc, made)
}

/// A position as a word.
pub(crate) fn position(at: u64) -> Word
    requires { at ≤ 2 ^ 62 }
    ensures { result ≡ words.Int (pos at) }
{
    Word::Int(at as i64)
}

/// The rest and the child of a task by the parts of its stack and the cuts of its tables. The task
/// goes on as the left, where it stands.
fn come_apart(
    machine: &mut Machine,
    stacks: Cut,
    cuts: &[(u8, TableCut)],
    tie: Tie,
    base: u64,
    child: u32,
) -> Result<(Kept, Box<Machine>), Trouble>
    requires left { All (λ m. m.base ≤ 2 ^ 62) stacks.left.marks }
    requires rest { stacks.rest.marks ≡ [] }
    requires child { stacks.child.marks ≡ [] }
    requires base { base ≤ 2 ^ 62 }
    ensures parts { IfOk result
        (λ made. cutting.parted stacks.left stacks.rest stacks.child child tie base cuts.now
        (state_of machine.old)
        ≡ record {
          rec = made.0.rec;
          left = state_of machine.new;
          rest = rest_state made.0;
          child = state_of made.1.value;
        }) }
    ensures left { IfOk result (λ made. AreLow machine.new) }
    ensures rest { IfOk result (λ made. IsRestSound made.0) }
    ensures child { IfOk result (λ made. AreLow made.1.value) }
    ensures err { IfErr result (λ trouble. trouble ≡ Trouble.NoMemory) }
{
    let alloc = *machine.output.allocator();
    let held = replace(&mut machine.tables, Vec::new(alloc));
    let tables = cut_tables(alloc, held, cuts)?;
    let rest_made = copy_of(alloc, &machine.made)?;
    let child_made = copy_of(alloc, &machine.made)?;
    let mut registers = machine.registers;
    registers[31] = position(base);
    let limit = machine.fuel.limit();
    let right = Box::new(
        alloc,
        Machine {
            registers,
            stack: stacks.child,
            tables: tables.child,
            made: child_made,
            fuel: Fuel::new(limit),
            beat: Beat::new(),
            output: Vec::new(alloc),
            goal: Goal::At {
                rec: tie.rec,
                side: SideName::Right,
                target: tie.target,
            },
            block: child,
            at: 0,
            pending: None,
            met: None,
            waiting: None,
        },
    )?;
    let rest = Kept {
        stack: stacks.rest,
        tables: tables.rest,
        output: replace(&mut machine.output, Vec::new(alloc)),
        goal: machine.goal,
        base,
        rec: tie.rec,
        target: tie.target,
        limit,
        made: rest_made,
    };
    machine.stack = stacks.left;
    machine.tables = tables.left;
    machine.beat.take();
    machine.goal = Goal::At {
        rec: tie.rec,
        side: SideName::Left,
        target: tie.target,
    };
    machine.pending = None;
    machine.met = None;
    Ok((rest, right))
}

/// The parts of a task by the parts of its stack and the cuts of its tables. The left keeps the
/// task's own box.
fn parted(
    machine: Box<Machine>,
    stacks: Cut,
    cuts: &[(u8, TableCut)],
    tie: Tie,
    base: u64,
    child: u32,
) -> Result<ForkParts, Trouble>
    requires left { All (λ m. m.base ≤ 2 ^ 62) stacks.left.marks }
    requires rest { stacks.rest.marks ≡ [] }
    requires child { stacks.child.marks ≡ [] }
    requires base { base ≤ 2 ^ 62 }
    ensures parts { IfOk result
        (λ parts. forked_state parts
        ≡ cutting.parted stacks.left stacks.rest stacks.child child tie base cuts.now
        (state_of machine.value)) }
    ensures sound { IfOk result ArePartsSound }
    ensures err { IfErr result (λ trouble. trouble ≡ Trouble.NoMemory) }
{
    let mut machine = machine;
    let (rest, right) = come_apart(&mut machine, stacks, cuts, tie, base, child)?;
    Ok(ForkParts {
        left: machine,
        rest,
        child: right,
    })
}

/// Why a stack isn't cut.
#[tactic(auto, using(crate::proofs::Refusals::work_refused))]
fn cut_trouble(fault: StackFault) -> Trouble
    ensures { (stack : StackValue) (mark : Mark) (go : Result cutting.Forked Fault)
        → CutCause fault stack mark.base mark.cells
        → FailsAs (cutting.on_work stack mark go) result }
{
    match fault {
        StackFault::NoMemory => Trouble::NoMemory,
        StackFault::OutOfRange
        | StackFault::NotMarked
        | StackFault::MarkedCell
        | StackFault::MarkOrder
        | StackFault::TooLong => Trouble::Stuck(Fault::OutOfRange),
    }
}

/// The fork of a task by a mark, under a record that is its own.
#[tactic(auto, using(crate::proofs::Refusals::work_goes, crate::proofs::Stacks::low_above))]
fn fork_at(
    machine: Box<Machine>,
    code: &Code,
    tie: Tie,
    mark: Mark,
    child: u32,
) -> Result<ForkParts, Trouble>
    requires low { AreLow machine.value }
    requires base { mark.base ≤ 2 ^ 62 }
    ensures ok { IfOk result
        (λ parts. cutting.forked_at code.now child tie mark (state_of machine.value)
        ≡ Ok (forked_state parts)) }
    ensures sound { IfOk result ArePartsSound }
    ensures err { IfErr result
        (λ trouble.
        FailsAs (cutting.forked_at code.now child tie mark (state_of machine.value))
        trouble) }
{
    let alloc = *machine.output.allocator();
    let cuts = carried(alloc, &machine.registers, carries_of(code, tie.target));
    let mut machine = machine;
    let stack = replace(&mut machine.stack, Stack::new(alloc, 0));
    match stack.cut(mark.base, mark.cells, kind_of(code, tie.target)) {
        Err((_, fault)) => Err(cut_trouble(fault)),
        Ok(stacks) => {
            let cuts = cuts?;
            parted(machine, stacks, &cuts, tie, mark.base, child)
        }
    }
}

/// The fork of a task under a record that is its own.
fn fork_under(
    machine: Box<Machine>,
    code: &Code,
    tie: Tie,
    child: u32,
) -> Result<ForkParts, Trouble>
    requires low { AreLow machine.value }
    ensures ok { IfOk result
        (λ parts. cutting.fork_under code.now child tie (state_of machine.value)
        ≡ Ok (forked_state parts)) }
    ensures sound { IfOk result ArePartsSound }
    ensures err { IfErr result
        (λ trouble.
        FailsAs (cutting.fork_under code.now child tie (state_of machine.value)) trouble) }
{
    let mut beat = machine.beat;
    if !beat.take() {
        return Err(Trouble::Stuck(Fault::NoBeat));
    }
    match machine.stack.oldest() {
        None => Err(Trouble::Stuck(Fault::NoMark)),
        Some(mark) => fork_at(machine, code, tie, mark, child),
    }
}

/// `fork rA, @l`, by value: the task comes apart.
pub(crate) fn fork(
    machine: Box<Machine>,
    code: &Code,
    rec: u8,
    child: u32,
) -> Result<ForkParts, Trouble>
    requires low { AreLow machine.value }
    ensures ok { IfOk result
        (λ parts.
        cutting.fork code.now rec child (state_of machine.value) ≡ Ok (forked_state parts)) }
    ensures sound { IfOk result ArePartsSound }
    ensures err { IfErr result
        (λ trouble. FailsAs (cutting.fork code.now rec child (state_of machine.value)) trouble) }
{
    match register(&machine.registers, rec) {
        Word::Int(_) | Word::Label(_) | Word::Nil => Err(Trouble::Stuck(Fault::NotRec)),
        Word::Rec(number) => match machine.pending {
            None => Err(Trouble::Stuck(Fault::WrongRecord)),
            Some(tie) => {
                if tie.rec == number {
                    fork_under(machine, code, tie, child)
                } else {
                    Err(Trouble::Stuck(Fault::WrongRecord))
                }
            }
        },
    }
}
