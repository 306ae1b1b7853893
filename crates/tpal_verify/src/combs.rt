// What flows into combining blocks.

ghost use Rattle.std.specs.Prelude.{◌≡◌, IfOk, [], ◌∷◌, replicate};
ghost use Rattle.tpal_verify.specs.declared.kinds.Kind.TheVariants as kind;
ghost use Rattle.tpal_verify.specs.Rules.{note_at};
ghost use Rattle.tpal_verify.specs.Rounds.{left_kinds, right_kinds, comb_shape, comb_flow};
ghost use Rattle.tpal_verify.specs.Rounds.{each_comb_flow, forks_of, all_forks, with_flows};
ghost use Rattle.tpal_verify.specs.Rounding.{forks_due, trace_at};

use crate::agreement::found;
use crate::board::Board;
use crate::flat::Ground;
use crate::kinds::Kind;
use crate::shape::{Shape, set};
use crate::trace::Trace;
use std::alloc::Global;
use tp_value::NoMemory;
use tpal_syntax::{Note, Target};

/// The kinds under the left names of a renaming.
fn fill_left(kinds: &mut Vec<Kind>, join: &[Kind], renames: &[(u8, u8)])
    ensures { kinds.new.items ≡ left_kinds (join.now ∷ []) kinds.old.items renames.now }
{
    let mut rest = renames;
    while let Some((names, behind)) = rest.split_first() {
        set(kinds, names.0 as usize, found(join, names.0));
        rest = behind;
    }
}

/// Those under its right names.
fn fill_right(kinds: &mut Vec<Kind>, join: &[Kind], renames: &[(u8, u8)])
    ensures { kinds.new.items ≡ right_kinds (join.now ∷ []) kinds.old.items renames.now }
{
    let mut rest = renames;
    while let Some((names, behind)) = rest.split_first() {
        set(kinds, names.1 as usize, found(join, names.0));
        rest = behind;
    }
}

/// How forks flow into combining blocks, by one join that stands for all.
#[derive(Drop)]
pub(crate) struct Combs<'a> {
    pub(crate) alloc: Global,
    pub(crate) ground: &'a Ground<'a>,
    pub(crate) join: &'a [Kind],
}

impl<'a> Combs<'a> {
    /// The shape where both sides of a fork under a target are joined.
    fn shape(&self, label: u32, target: &Target, before: &Shape) -> Result<Shape, NoMemory>
        ensures { IfOk result (λ s.
            s ≡ comb_shape (self.now.join.now ∷ []) label target.now before.now) }
    {
        let mut registers = vec![in self.alloc; Kind::Empty; 31]?;
        fill_left(&mut registers, self.join, target.renames.items());
        fill_right(&mut registers, self.join, target.renames.items());
        Ok(Shape::met_at(self.alloc, registers, before, label)?)
    }

    fn flow_fork(&self, board: &mut Board, fork: &(u32, Shape)) -> Result<(), NoMemory>
        ensures next { IfOk result (λ _. board.new.next ≡ with_flows board.old.next
            (comb_flow (note_at self.now.ground.now fork.now.0)
            (self.now.join.now ∷ []) fork.now)) }
        ensures now { IfOk result (λ _. board.new.now ≡ board.old.now) }
    {
        match self.ground.note_at(fork.0) {
            Some(note) => match note {
                Note::Plain => Ok(()),
                Note::Ready(_) => Ok(()),
                Note::Target(target) => {
                    let there = self.shape(fork.0, target, &fork.1)?;
                    board.flow(self.alloc, target.comb, &there)
                }
            },
            None => Ok(()),
        }
    }

    fn flow_forks(&self, board: &mut Board, forks: &[(u32, Shape)]) -> Result<(), NoMemory>
        ensures next { IfOk result (λ _. board.new.next ≡ with_flows board.old.next
            (each_comb_flow self.now.ground.now (self.now.join.now ∷ []) forks.now)) }
        ensures now { IfOk result (λ _. board.new.now ≡ board.old.now) }
    {
        let mut rest = forks;
        while let Some((fork, behind)) = rest.split_first() {
            self.flow_fork(board, fork)?;
            rest = behind;
        }
        Ok(())
    }

    fn flow_trace(&self, board: &mut Board, trace: &Option<Trace>) -> Result<(), NoMemory>
        ensures next { IfOk result (λ _. board.new.next ≡ with_flows board.old.next
            (each_comb_flow self.now.ground.now (self.now.join.now ∷ []) (forks_of trace.now))) }
        ensures now { IfOk result (λ _. board.new.now ≡ board.old.now) }
    {
        match trace {
            Some(trace) => self.flow_forks(board, trace.forks.items()),
            None => Ok(()),
        }
    }

    fn flow_block(
        &self,
        board: &mut Board,
        traces: &[Option<Trace>],
        label: u32,
    ) -> Result<(), NoMemory>
        ensures next { IfOk result (λ _. board.new.next ≡ with_flows board.old.next
            (each_comb_flow self.now.ground.now (self.now.join.now ∷ [])
            (forks_of (trace_at traces.now label)))) }
        ensures now { IfOk result (λ _. board.new.now ≡ board.old.now) }
    {
        let at = label as usize;
        if at >= traces.len() {
            return Ok(());
        }
        self.flow_trace(board, &traces[at])
    }

    /// Lets the forks of these blocks flow.
    pub(crate) fn flow_due(
        &self,
        board: &mut Board,
        traces: &[Option<Trace>],
        due: &[u32],
    ) -> Result<(), NoMemory>
        ensures next { IfOk result (λ _. board.new.next ≡ with_flows board.old.next
            (each_comb_flow self.now.ground.now (self.now.join.now ∷ [])
            (forks_due traces.now due.now))) }
        ensures now { IfOk result (λ _. board.new.now ≡ board.old.now) }
    {
        let mut rest = due;
        while let Some((label, behind)) = rest.split_first() {
            self.flow_block(board, traces, *label)?;
            rest = behind;
        }
        Ok(())
    }

    /// Lets the forks of all blocks flow.
    pub(crate) fn flow_all(
        &self,
        board: &mut Board,
        traces: &[Option<Trace>],
    ) -> Result<(), NoMemory>
        ensures next { IfOk result (λ _. board.new.next ≡ with_flows board.old.next
            (each_comb_flow self.now.ground.now (self.now.join.now ∷ []) (all_forks traces.now))) }
        ensures now { IfOk result (λ _. board.new.now ≡ board.old.now) }
    {
        let mut rest = traces;
        while let Some((trace, behind)) = rest.split_first() {
            self.flow_trace(board, trace)?;
            rest = behind;
        }
        Ok(())
    }
}
