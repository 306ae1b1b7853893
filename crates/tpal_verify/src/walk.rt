// One walk over a block: what flows is staged, what else is found is answered.

ghost use Rattle.std.specs.Prelude.{◌≡◌, IfOk};
ghost use Rattle.tpal_verify.specs.Walk.{both_ways, up_branch, branch, if_jump, fork_under, going};
ghost use Rattle.tpal_verify.specs.Walk.{goes, jumps_only};
ghost use Rattle.tpal_verify.specs.declared.kinds.Kind.TheVariants as kind;
ghost use Rattle.tpal_verify.specs.Shapes.{with_kind, with_cell, with_mark, root_shape};
ghost use Rattle.tpal_verify.specs.declared.phases.Phase.TheVariants as phase;
ghost use Rattle.tpal_verify.specs.Shapes.{kind_at};
ghost use Rattle.tpal_verify.specs.Walking.{flowed, forked, Went};

use crate::board::Board;
use crate::flat::Ground;
use crate::kinds::{EndFact, Kind, MarkFact};
use crate::phases::{Phase, after_calc, after_other};
use crate::rules::value_kind;
use crate::shape::Shape;
use std::alloc::Global;
use std::marker::Model;
use std::mem::replace;
use tp_value::NoMemory;
use tpal_syntax::Instr;

/// A walk that stands somewhere in a block: the shapes with what has flowed, the shape there, and
/// the forks so far.
#[derive(Drop)]
pub(crate) struct Walk {
    pub(crate) alloc: Global,
    pub(crate) board: Board,
    pub(crate) shape: Shape,
    pub(crate) forks: Vec<(u32, Shape)>,
}

impl Model for Walk {
    ghost use Rattle.tpal_verify.specs.Walking.{Walking};

    ghost Value = { Walking };

    ghost view = { λ w. record {
      now = w.board.now;
      next = w.board.next;
      shape = w.shape;
      forks = w.forks.items;
    } };
}

impl Walk {
    /// Lets a shape flow into a block.
    pub(crate) fn flow(&mut self, label: u32, shape: &Shape) -> Result<(), NoMemory>
        ensures { IfOk result (λ _. self.new ≡ flowed self.old label shape.now) }
    {
        self.board.flow(self.alloc, label, shape)
    }

    /// Lets the shape where the walk stands flow into a block.
    pub(crate) fn flow_here(&mut self, label: u32) -> Result<(), NoMemory>
        ensures { IfOk result (λ _. self.new ≡ flowed self.old label self.old.shape) }
    {
        self.board.flow(self.alloc, label, &self.shape)
    }

    /// The shape flows into a block, and the walk goes on with it.
    fn both_ways(&mut self, label: u32) -> Result<Option<Phase>, NoMemory>
        ensures { IfOk result (Went self.old self.new
            (both_ways label self.old.shape phase.Calm self.old.shape)) }
    {
        self.flow_here(label)?;
        Ok(Some(Phase::Calm))
    }

    /// A jump after a test of a register that is nil where the task ends the run.
    fn up_branch(&mut self, r: u8, label: u32) -> Result<Option<Phase>, NoMemory>
        ensures { IfOk result (Went self.old self.new
            (up_branch self.old.shape.at_end r label self.old.shape)) }
    {
        match self.shape.at_end() {
            EndFact::Root => self.root_branch(r, label),
            EndFact::Side => {
                self.shape.end_side(r);
                Ok(Some(Phase::Calm))
            }
            EndFact::Either => {
                let mut there = self.shape.copy(self.alloc)?;
                there.end_run(r);
                self.flow(label, &there)?;
                self.shape.end_side(r);
                Ok(Some(Phase::Calm))
            }
        }
    }

    fn root_branch(&mut self, r: u8, label: u32) -> Result<Option<Phase>, NoMemory>
        ensures { IfOk result (Went self.old self.new
            (jumps_only label (root_shape r self.old.shape))) }
    {
        let mut there = self.shape.copy(self.alloc)?;
        there.end_run(r);
        self.flow(label, &there)?;
        Ok(None)
    }

    /// A jump after a test of a register against nil.
    fn branch(&mut self, r: u8, label: u32) -> Result<Option<Phase>, NoMemory>
        ensures { IfOk result (Went self.old self.new
            (branch (kind_at self.old.shape r) r label self.old.shape)) }
    {
        match self.shape.kind_at(r) {
            Kind::Number => self.both_ways(label),
            Kind::Empty => {
                self.flow_here(label)?;
                Ok(None)
            }
            Kind::Own => Ok(Some(Phase::Calm)),
            Kind::Up => self.up_branch(r, label),
            Kind::Pend => self.both_ways(label),
            Kind::Met => self.both_ways(label),
            Kind::Back(_) => self.both_ways(label),
            Kind::Any => self.both_ways(label),
        }
    }

    /// A jump after a test of the answer to a question for a record.
    fn given(&mut self, rec: u8, target: u32, label: u32) -> Result<Option<Phase>, NoMemory>
        ensures { IfOk result (Went self.old self.new
            (both_ways label (with_kind self.old.shape rec kind.Empty)
            (phase.Given rec target) (with_kind self.old.shape rec kind.Pend))) }
    {
        let mut there = self.shape.copy(self.alloc)?;
        there.set_kind(rec, Kind::Empty);
        self.flow(label, &there)?;
        self.shape.set_kind(rec, Kind::Pend);
        Ok(Some(Phase::Given {
            record: rec,
            target,
        }))
    }

    fn if_jump(&mut self, phase: Phase, test: u8, label: u32) -> Result<Option<Phase>, NoMemory>
        ensures { IfOk result (Went self.old self.new (if_jump phase test label self.old.shape)) }
    {
        match phase {
            Phase::Calm => self.both_ways(label),
            Phase::Compared { register, truth } => {
                if truth == test {
                    self.branch(register, label)
                } else {
                    self.both_ways(label)
                }
            }
            Phase::Asked { .. } => self.both_ways(label),
            Phase::Tested { record, target, .. } => self.given(record, target, label),
            Phase::Given { .. } => self.both_ways(label),
        }
    }

    /// A fork under a record that was given for a join target.
    fn fork(&mut self, target: u32, rec: u8, child: u32) -> Result<Option<Phase>, NoMemory>
        ensures { IfOk result (Went self.old self.new (forked target self.old.shape rec child)) }
    {
        let left = self.shape.left(self.alloc, rec)?;
        let mut there = left.copy(self.alloc)?;
        there.set_mark(MarkFact::Clear);
        self.flow(child, &there)?;
        let before = replace(&mut self.shape, left);
        self.forks.push((target, before))?;
        Ok(Some(Phase::Calm))
    }

    fn fork_under(&mut self, phase: Phase, rec: u8, child: u32) -> Result<Option<Phase>, NoMemory>
        ensures { IfOk result (Went self.old self.new
            (fork_under phase self.old.shape rec child)) }
    {
        match phase {
            Phase::Calm => Ok(None),
            Phase::Compared { .. } => Ok(None),
            Phase::Asked { .. } => Ok(None),
            Phase::Tested { .. } => Ok(None),
            Phase::Given { target, .. } => self.fork(target, rec, child),
        }
    }

    /// A word of a kind gets into a register.
    fn set(&mut self, r: u8, kind: Kind, phase: Phase) -> Option<Phase>
        ensures { Went self.old self.new (goes phase (with_kind self.old.shape r kind)) result }
    {
        self.shape.set_kind(r, kind);
        Some(phase)
    }

    fn store(&mut self, off: u16, kind: Kind, phase: Phase) -> Option<Phase>
        ensures { Went self.old self.new (goes phase (with_cell self.old.shape off kind)) result }
    {
        self.shape.set_cell(off, kind);
        Some(phase)
    }

    fn mark(&mut self, mark: MarkFact) -> Option<Phase>
        ensures { Went self.old self.new (goes phase.Calm (with_mark self.old.shape mark)) result }
    {
        self.shape.set_mark(mark);
        Some(Phase::Calm)
    }

    fn split(&mut self, base: u8, split: u8) -> Option<Phase>
        ensures { Went self.old self.new (goes phase.Calm
            (with_kind (with_kind self.old.shape base kind.Number) split kind.Any)) result }
    {
        self.shape.set_kind(base, Kind::Number);
        self.shape.set_kind(split, Kind::Any);
        Some(Phase::Calm)
    }

    fn pass(&self) -> Option<Phase>
        ensures { Went self.now self.now (goes phase.Calm self.now.shape) result }
    {
        Some(Phase::Calm)
    }

    /// An instruction that breaks no rule: what flows from it flows, and the answer is the phase
    /// behind it, or None where nothing flows past it.
    pub(crate) fn going(
        &mut self,
        ground: &Ground,
        phase: Phase,
        instr: Instr,
    ) -> Result<Option<Phase>, NoMemory>
        ensures { IfOk result (Went self.old self.new
            (going ground.now phase self.old.shape instr)) }
    {
        match instr {
            Instr::Move { to, value } => {
                let kind = value_kind(ground, &self.shape, value);
                Ok(self.set(to, kind, after_other(phase)))
            }
            Instr::Calc {
                to,
                left,
                alu,
                right,
            } => Ok(self.set(to, Kind::Number, after_calc(phase, to, left, alu, right))),
            Instr::IfJump { test, label } => self.if_jump(phase, test, label),
            Instr::Load { to, off, .. } => {
                let kind = self.shape.cell_at(off);
                Ok(self.set(to, kind, after_other(phase)))
            }
            Instr::Store { off, value, .. } => {
                let kind = value_kind(ground, &self.shape, value);
                Ok(self.store(off, kind, after_other(phase)))
            }
            Instr::Salloc(_) => Ok(self.pass()),
            Instr::Sfree(_) => Ok(self.pass()),
            Instr::PrmPush { .. } => Ok(self.mark(MarkFact::Marked)),
            Instr::PrmPop { .. } => Ok(self.mark(MarkFact::Clear)),
            Instr::PrmDrop => Ok(self.mark(MarkFact::Clear)),
            Instr::PrmEmpty(r) => Ok(self.set(r, Kind::Number, Phase::Calm)),
            Instr::PrmSplit { base, split } => Ok(self.split(base, split)),
            Instr::JrAlloc { to, target } => {
                Ok(self.set(to, Kind::Any, Phase::Asked { record: to, target }))
            }
            Instr::Fork { rec, child } => self.fork_under(phase, rec, child),
            Instr::Fetch { to, .. } => Ok(self.set(to, Kind::Number, Phase::Calm)),
            Instr::Put { .. } => Ok(self.pass()),
            Instr::Rows { to, .. } => Ok(self.set(to, Kind::Number, Phase::Calm)),
            Instr::Cols { to, .. } => Ok(self.set(to, Kind::Number, Phase::Calm)),
            Instr::Make { .. } => Ok(self.pass()),
            Instr::Tick => Ok(self.pass()),
            Instr::Trap { .. } => Ok(None),
            Instr::Print(_) => Ok(self.pass()),
            Instr::Emit(_) => Ok(self.pass()),
        }
    }
}
