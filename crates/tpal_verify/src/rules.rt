// The rules of an instruction, by what is known where it stands.

ghost use Rattle.std.specs.Prelude.{◌≡◌, Some};
ghost use Rattle.std.specs.List.{list_all};
ghost use Rattle.tpal_verify.specs.Rules.{note_at, carries_of, is_target, value_kind, compares};
ghost use Rattle.tpal_verify.specs.Rules.{is_number_at, cuts_by_numbers, fork_cuts, has_numbers};
ghost use Rattle.tpal_verify.specs.Rules.{marks_rightly, leaves_alone, forked_under};
ghost use Rattle.tpal_verify.specs.Rules.{leads_to_fork, truth_of, jumps_by};
ghost use Rattle.tpal_verify.specs.Rules.{is_eq, is_nil, tests_first, asks_rightly};
ghost use Rattle.tpal_verify.specs.Rules.{may_fork, broken_rule};

use crate::flat::Ground;
use crate::kinds::{Kind, is_clear, is_marked, is_same};
use crate::phases::Phase;
use crate::shape::Shape;
use tpal_syntax::{Alu, CarryAt, Instr, Note, Value};

/// The kind of the word of an operand.
pub fn value_kind(ground: &Ground, shape: &Shape, value: Value) -> Kind
    ensures { result ≡ value_kind ground.now shape.now value }
{
    match value {
        Value::Reg(r) => shape.kind_at(r),
        Value::Int(_) => Kind::Number,
        Value::Label(label) => ground.label_kind(label),
        Value::Nil => Kind::Empty,
    }
}

fn is_number_at(shape: &Shape, r: u8) -> bool
    ensures { result ≡ is_number_at shape.now r }
{
    is_same(shape.kind_at(r), Kind::Number)
}

fn cuts_by_numbers(shape: &Shape, item: CarryAt) -> bool
    ensures { result ≡ cuts_by_numbers shape.now item }
{
    match item {
        CarryAt::Rows { at, .. } => is_number_at(shape, at),
        CarryAt::Cells { row, at, .. } => is_number_at(shape, row) && is_number_at(shape, at),
    }
}

fn compares(alu: Alu) -> bool
    ensures { result ≡ compares alu }
{
    match alu {
        Alu::Add => false,
        Alu::Sub => false,
        Alu::Mul => false,
        Alu::Div => false,
        Alu::Rem => false,
        Alu::Eq => true,
        Alu::Ne => true,
        Alu::Lt => false,
        Alu::Le => false,
        Alu::Min => false,
        Alu::Max => false,
        Alu::Affine => false,
    }
}

fn fork_cuts(ground: &Ground, phase: Phase, shape: &Shape, rec: u8) -> bool
    ensures { result ≡ fork_cuts ground.now phase shape.now rec }
{
    match phase {
        Phase::Calm => true,
        Phase::Compared { .. } => true,
        Phase::Asked { .. } => true,
        Phase::Tested { .. } => true,
        Phase::Given { target, .. } => {
            !is_same(shape.kind_at(rec), Kind::Pend) || target_cuts(ground, shape, target)
        }
    }
}

/// Whether the registers are numbers by which a join target cuts tables.
fn note_cuts(shape: &Shape, note: &Note) -> bool
    ensures { result ≡ list_all (cuts_by_numbers shape.now) (carries_of note.now) }
{
    match note {
        Note::Plain => true,
        Note::Ready(_) => true,
        Note::Target(target) => target
            .carries
            .items()
            .iter()
            .all(|item| cuts_by_numbers(shape, *item)),
    }
}

fn target_cuts(ground: &Ground, shape: &Shape, target: u32) -> bool
    ensures { result
        ≡ list_all (cuts_by_numbers shape.now) (carries_of (note_at ground.now target)) }
{
    match ground.note_at(target) {
        Some(note) => note_cuts(shape, note),
        None => true,
    }
}

/// Whether there are numbers where the machine asks for numbers.
fn has_numbers(ground: &Ground, phase: Phase, shape: &Shape, instr: Instr) -> bool
    ensures { result ≡ has_numbers ground.now phase shape.now instr }
{
    match instr {
        Instr::Move { .. } => true,
        Instr::Calc {
            left,
            alu,
            right,
            ..
        } => {
            compares(alu)
                || (is_number_at(shape, left)
                    && is_same(value_kind(ground, shape, right), Kind::Number))
        }
        Instr::IfJump { test, .. } => is_number_at(shape, test),
        Instr::Load { base, .. } => is_number_at(shape, base),
        Instr::Store { base, .. } => is_number_at(shape, base),
        Instr::Salloc(_) => true,
        Instr::Sfree(_) => true,
        Instr::PrmPush { base, .. } => is_number_at(shape, base),
        Instr::PrmPop { base, .. } => is_number_at(shape, base),
        Instr::PrmDrop => true,
        Instr::PrmEmpty(_) => true,
        Instr::PrmSplit { .. } => true,
        Instr::JrAlloc { .. } => true,
        Instr::Fork { rec, .. } => fork_cuts(ground, phase, shape, rec),
        Instr::Fetch { row, col, .. } => is_number_at(shape, row) && is_number_at(shape, col),
        Instr::Put {
            row,
            col,
            value,
            ..
        } => is_number_at(shape, row) && is_number_at(shape, col) && is_number_at(shape, value),
        Instr::Rows { .. } => true,
        Instr::Cols { .. } => true,
        Instr::Make { rows, cols, .. } => is_number_at(shape, rows) && is_number_at(shape, cols),
        Instr::Tick => true,
        Instr::Trap { .. } => true,
        Instr::Print(r) => is_number_at(shape, r),
        Instr::Emit(_) => true,
    }
}

/// Whether the mark is as an instruction wants it.
fn marks_rightly(shape: &Shape, instr: Instr) -> bool
    ensures { result ≡ marks_rightly shape.now instr }
{
    match instr {
        Instr::PrmPush { .. } => is_clear(shape.mark()),
        Instr::PrmDrop => is_marked(shape.mark()),
        Instr::PrmSplit { .. } => is_marked(shape.mark()),
        Instr::Fork { .. } => is_marked(shape.mark()),
        Instr::Move { .. }
        | Instr::Calc { .. }
        | Instr::IfJump { .. }
        | Instr::Load { .. }
        | Instr::Store { .. }
        | Instr::Salloc(_)
        | Instr::Sfree(_)
        | Instr::PrmPop { .. }
        | Instr::PrmEmpty(_)
        | Instr::JrAlloc { .. }
        | Instr::Fetch { .. }
        | Instr::Put { .. }
        | Instr::Rows { .. }
        | Instr::Cols { .. }
        | Instr::Make { .. }
        | Instr::Tick
        | Instr::Trap { .. }
        | Instr::Print(_)
        | Instr::Emit(_) => true,
    }
}

/// Whether moves, calculations, loads and stores that leave a register alone come next, and then a
/// fork under it.
fn leads_to_fork(r: u8, body: &[Instr]) -> bool
    ensures { result ≡ leads_to_fork r body.now }
{
    let mut rest = body;
    while let Some((instr, behind)) = rest.split_first() {
        match forked_under(*instr) {
            Some(rec) => return rec == r,
            None => {
                if !leaves_alone(r, *instr) {
                    return false;
                }
                rest = behind;
            }
        }
    }
    false
}

/// Whether an instruction is a move, a calculation, a load or a store that leaves a register alone.
fn leaves_alone(r: u8, instr: Instr) -> bool
    ensures { result ≡ leaves_alone r instr }
{
    match instr {
        Instr::Move { to, .. } => to != r,
        Instr::Calc { to, .. } => to != r,
        Instr::Load { to, .. } => to != r,
        Instr::Store { .. } => true,
        Instr::IfJump { .. }
        | Instr::Salloc(_)
        | Instr::Sfree(_)
        | Instr::PrmPush { .. }
        | Instr::PrmPop { .. }
        | Instr::PrmDrop
        | Instr::PrmEmpty(_)
        | Instr::PrmSplit { .. }
        | Instr::JrAlloc { .. }
        | Instr::Fork { .. }
        | Instr::Fetch { .. }
        | Instr::Put { .. }
        | Instr::Rows { .. }
        | Instr::Cols { .. }
        | Instr::Make { .. }
        | Instr::Tick
        | Instr::Trap { .. }
        | Instr::Print(_)
        | Instr::Emit(_) => false,
    }
}

/// The record of a fork.
fn forked_under(instr: Instr) -> Option<u8>
    ensures { result ≡ forked_under instr }
{
    match instr {
        Instr::Fork { rec, .. } => Some(rec),
        Instr::Move { .. }
        | Instr::Calc { .. }
        | Instr::IfJump { .. }
        | Instr::Load { .. }
        | Instr::Store { .. }
        | Instr::Salloc(_)
        | Instr::Sfree(_)
        | Instr::PrmPush { .. }
        | Instr::PrmPop { .. }
        | Instr::PrmDrop
        | Instr::PrmEmpty(_)
        | Instr::PrmSplit { .. }
        | Instr::JrAlloc { .. }
        | Instr::Fetch { .. }
        | Instr::Put { .. }
        | Instr::Rows { .. }
        | Instr::Cols { .. }
        | Instr::Make { .. }
        | Instr::Tick
        | Instr::Trap { .. }
        | Instr::Print(_)
        | Instr::Emit(_) => None,
    }
}

/// The register of a test of another one against nil.
fn truth_of(r: u8, instr: Instr) -> Option<u8>
    ensures { result ≡ truth_of r instr }
{
    match instr {
        Instr::Calc {
            to,
            left,
            alu,
            right,
        } => {
            if left == r && to != r && is_eq(alu) && is_nil(right) {
                Some(to)
            } else {
                None
            }
        }
        Instr::Move { .. }
        | Instr::IfJump { .. }
        | Instr::Load { .. }
        | Instr::Store { .. }
        | Instr::Salloc(_)
        | Instr::Sfree(_)
        | Instr::PrmPush { .. }
        | Instr::PrmPop { .. }
        | Instr::PrmDrop
        | Instr::PrmEmpty(_)
        | Instr::PrmSplit { .. }
        | Instr::JrAlloc { .. }
        | Instr::Fork { .. }
        | Instr::Fetch { .. }
        | Instr::Put { .. }
        | Instr::Rows { .. }
        | Instr::Cols { .. }
        | Instr::Make { .. }
        | Instr::Tick
        | Instr::Trap { .. }
        | Instr::Print(_)
        | Instr::Emit(_) => None,
    }
}

fn is_eq(alu: Alu) -> bool
    ensures { result ≡ is_eq alu }
{
    match alu {
        Alu::Add => false,
        Alu::Sub => false,
        Alu::Mul => false,
        Alu::Div => false,
        Alu::Rem => false,
        Alu::Eq => true,
        Alu::Ne => false,
        Alu::Lt => false,
        Alu::Le => false,
        Alu::Min => false,
        Alu::Max => false,
        Alu::Affine => false,
    }
}

fn is_nil(value: Value) -> bool
    ensures { result ≡ is_nil value }
{
    match value {
        Value::Reg(_) => false,
        Value::Int(_) => false,
        Value::Label(_) => false,
        Value::Nil => true,
    }
}

/// Whether an instruction jumps where a register holds true.
fn jumps_by(truth: u8, instr: Instr) -> bool
    ensures { result ≡ jumps_by (Some truth) instr }
{
    match instr {
        Instr::IfJump { test, .. } => test == truth,
        Instr::Move { .. }
        | Instr::Calc { .. }
        | Instr::Load { .. }
        | Instr::Store { .. }
        | Instr::Salloc(_)
        | Instr::Sfree(_)
        | Instr::PrmPush { .. }
        | Instr::PrmPop { .. }
        | Instr::PrmDrop
        | Instr::PrmEmpty(_)
        | Instr::PrmSplit { .. }
        | Instr::JrAlloc { .. }
        | Instr::Fork { .. }
        | Instr::Fetch { .. }
        | Instr::Put { .. }
        | Instr::Rows { .. }
        | Instr::Cols { .. }
        | Instr::Make { .. }
        | Instr::Tick
        | Instr::Trap { .. }
        | Instr::Print(_)
        | Instr::Emit(_) => false,
    }
}

/// Whether a test of a register against nil comes next, a jump by it, and what leads to a fork.
fn tests_first(r: u8, body: &[Instr]) -> bool
    ensures { result ≡ tests_first r body.now }
{
    let Some((test, behind)) = body.split_first() else {
        return false;
    };
    let Some((jump, rest)) = behind.split_first() else {
        return false;
    };
    match truth_of(r, *test) {
        Some(truth) => jumps_by(truth, *jump) && leads_to_fork(r, rest),
        None => false,
    }
}

fn is_target(ground: &Ground, label: u32) -> bool
    ensures { result ≡ is_target (note_at ground.now label) }
{
    match ground.blocks().get(label as usize) {
        Some(block) => match &block.note {
            Note::Plain => false,
            Note::Ready(_) => false,
            Note::Target(_) => true,
        },
        None => false,
    }
}

/// Whether what stands behind a `jralloc` tests and forks as it must.
fn asks_rightly(ground: &Ground, instr: Instr, rest: &[Instr]) -> bool
    ensures { result ≡ asks_rightly ground.now instr rest.now }
{
    match instr {
        Instr::JrAlloc { to, target } => is_target(ground, target) && tests_first(to, rest),
        Instr::Move { .. }
        | Instr::Calc { .. }
        | Instr::IfJump { .. }
        | Instr::Load { .. }
        | Instr::Store { .. }
        | Instr::Salloc(_)
        | Instr::Sfree(_)
        | Instr::PrmPush { .. }
        | Instr::PrmPop { .. }
        | Instr::PrmDrop
        | Instr::PrmEmpty(_)
        | Instr::PrmSplit { .. }
        | Instr::Fork { .. }
        | Instr::Fetch { .. }
        | Instr::Put { .. }
        | Instr::Rows { .. }
        | Instr::Cols { .. }
        | Instr::Make { .. }
        | Instr::Tick
        | Instr::Trap { .. }
        | Instr::Print(_)
        | Instr::Emit(_) => true,
    }
}

/// Whether a fork is under the pending record and has a grant.
fn may_fork(shape: &Shape, instr: Instr) -> bool
    ensures { result ≡ may_fork shape.now instr }
{
    match instr {
        Instr::Fork { rec, .. } => { is_same(shape.kind_at(rec), Kind::Pend) && shape.granted() }
        Instr::Move { .. }
        | Instr::Calc { .. }
        | Instr::IfJump { .. }
        | Instr::Load { .. }
        | Instr::Store { .. }
        | Instr::Salloc(_)
        | Instr::Sfree(_)
        | Instr::PrmPush { .. }
        | Instr::PrmPop { .. }
        | Instr::PrmDrop
        | Instr::PrmEmpty(_)
        | Instr::PrmSplit { .. }
        | Instr::JrAlloc { .. }
        | Instr::Fetch { .. }
        | Instr::Put { .. }
        | Instr::Rows { .. }
        | Instr::Cols { .. }
        | Instr::Make { .. }
        | Instr::Tick
        | Instr::Trap { .. }
        | Instr::Print(_)
        | Instr::Emit(_) => true,
    }
}

/// The least rule that an instruction breaks, if any; `rest` stands behind it.
pub fn broken_rule(
    ground: &Ground,
    first: bool,
    here: (Phase, &Shape),
    instr: Instr,
    rest: &[Instr],
) -> Option<u8>
    ensures { result ≡ broken_rule ground.now first here.entry.0 here.entry.1.now instr rest.now }
{
    if !ground.is_flat(first, instr) {
        Some(1)
    } else if !has_numbers(ground, here.0, here.1, instr) {
        Some(2)
    } else if !marks_rightly(here.1, instr) {
        Some(3)
    } else if !asks_rightly(ground, instr, rest) {
        Some(4)
    } else if !may_fork(here.1, instr) {
        Some(5)
    } else {
        None
    }
}
