// The shapes of all blocks, and what a round stages in their place.

ghost use Rattle.std.specs.Prelude.{◌≡◌, IfOk, IfSome, IfNone, MatchOption, Some, None, true};
ghost use Rattle.std.specs.Prelude.{slice_set, slice_index_or, replicate};
ghost use Rattle.tpal_verify.specs.Rounds.{with_shape, with_flow, holds_shape, shape_at, start};
ghost use Rattle.tpal_verify.specs.Board.{next_in, placed, with_staged, empty_slot, is_some, begun};
ghost use Rattle.tpal_verify.specs.Board.{AreSameBut};

use crate::flat::Ground;
use crate::shape::Shape;
use std::alloc::Global;
use std::marker::Model;
use std::mem::replace;
use tp_value::NoMemory;

/// What is kept of a block.
#[derive(Drop)]
struct Slot {
    // the shape that stands
    shape: Option<Shape>,
    // the one that this round puts in its place, where that differs
    staged: Option<Shape>,
}

/// The shapes of all blocks, by their labels. A first shape is moved into its place, and a join
/// makes one new shape.
#[derive(Drop)]
pub(crate) struct Board {
    slots: Vec<Slot>,
    // the labels of the staged shapes
    changed: Vec<u32>,
}

impl Model for Board {
    ghost use Rattle.std.specs.Prelude.{map};
    ghost use Rattle.tpal_verify.specs.Board.{Board as Kept, next_in, AreNoted};

    ghost Value = { Kept };

    ghost view = { λ b. record {
      now = map (λ s. s.shape) b.slots.items;
      next = map next_in b.slots.items;
      changed = b.changed.items;
    } };

    ghost invariant = { λ b. AreNoted b.slots.items b.changed.items };
}

impl Slot {
    /// The shape to which the round has come.
    fn next(&self) -> Option<&Shape>
        ensures { MatchOption result (next_in self.now ≡ None)
            (λ s. next_in self.now ≡ Some s.now) }
    {
        match &self.staged {
            Some(staged) => Some(staged),
            None => self.shape.as_ref(),
        }
    }

    fn empty() -> Slot
        ensures { result ≡ empty_slot }
    {
        Slot {
            shape: None,
            staged: None,
        }
    }

    fn with_staged(self, next: Shape) -> Slot
        ensures { result ≡ with_staged self next }
    {
        let Slot { shape, staged: _ } = self;
        Slot {
            shape,
            staged: Some(next),
        }
    }

    fn placed(self) -> Slot
        ensures { result ≡ placed self }
    {
        let Slot { shape, staged } = self;
        match staged {
            Some(next) => Slot {
                shape: Some(next),
                staged: None,
            },
            None => Slot {
                shape,
                staged: None,
            },
        }
    }

    fn is_staged(&self) -> bool
        ensures { result ≡ is_some self.now.staged }
    {
        self.staged.is_some()
    }

    /// The shape that stages what flows in; None where that is held already.
    fn flowed(&self, alloc: Global, shape: &Shape) -> Result<Option<Shape>, NoMemory>
        ensures held { IfOk result (λ next.
            IfNone next (holds_shape (next_in self.now) shape.now ≡ true)) }
        ensures next { IfOk result (λ next.
            IfSome next (λ s. Some s ≡ with_shape (next_in self.now) shape.now)) }
    {
        match self.next() {
            Some(there) => {
                if shape.is_below(there) {
                    return Ok(None);
                }
                Ok(Some(there.joined(alloc, shape)?))
            }
            None => Ok(Some(shape.copy(alloc)?)),
        }
    }
}

impl Board {
    /// Block 0 alone has a shape: that in which the run begins.
    #[tactic(auto, using(crate::proofs::Staging::begun_standing, crate::proofs::Staging::begun_next, crate::proofs::Staging::begun_noted))]
    pub(crate) fn first(alloc: Global, ground: &Ground) -> Result<Board, NoMemory>
        ensures now { IfOk result (λ board. board.now ≡ start ground.now) }
        ensures next { IfOk result (λ board. board.next ≡ start ground.now) }
    {
        let mut slots = empty_slots(alloc, ground.blocks().len())?;
        let shape = Shape::first(alloc, ground.cells())?;
        begin(&mut slots, shape);
        Ok(Board {
            slots,
            changed: Vec::new(alloc),
        })
    }

    /// Lets a shape flow into a block.
    #[tactic(auto, using(crate::proofs::Staging::flowed_next, crate::proofs::Staging::staged_standing, crate::proofs::Staging::noted_more, crate::proofs::Staging::noted_again, crate::proofs::Staging::held_next, crate::proofs::Staging::past_next))]
    pub(crate) fn flow(&mut self, alloc: Global, label: u32, shape: &Shape) -> Result<(), NoMemory>
        ensures next { IfOk result (λ _.
            self.new.next ≡ with_flow self.old.next (label, shape.now)) }
        ensures now { IfOk result (λ _. self.new.now ≡ self.old.now) }
    {
        let at = label as usize;
        if at >= self.slots.len() {
            return Ok(());
        }
        let Some(next) = self.slots[at].flowed(alloc, shape)? else {
            return Ok(());
        };
        if self.slots[at].is_staged() {
            stage(&mut self.slots, at, next);
            return Ok(());
        }
        self.changed.push(label)?;
        stage(&mut self.slots, at, next);
        Ok(())
    }

    /// A copy of the shape that stands in a block.
    pub(crate) fn shape_of(&self, alloc: Global, label: u32) -> Result<Option<Shape>, NoMemory>
        ensures { IfOk result (λ shape. shape ≡ shape_at self.now.now label) }
    {
        match self.slots.get(label as usize) {
            Some(slot) => match &slot.shape {
                Some(shape) => Ok(Some(shape.copy(alloc)?)),
                None => Ok(None),
            },
            None => Ok(None),
        }
    }

    #[tactic(auto, using(crate::proofs::Staging::placed_next, crate::proofs::Staging::noted_less, crate::proofs::Staging::all_placed, crate::proofs::Staging::same_but))]
    /// Puts what is staged in place, and answers the labels at which that changes something.
    pub(crate) fn settle(&mut self, alloc: Global) -> Vec<u32>
        ensures now { self.new.now ≡ self.old.next }
        ensures next { self.new.next ≡ self.old.next }
        ensures changed { AreSameBut result.items self.new.now self.old.now }
    {
        let changed = replace(&mut self.changed, Vec::new(alloc));
        let mut rest = &changed[..];
        while let Some((label, behind)) = rest.split_first() {
            put(&mut self.slots, *label as usize);
            rest = behind;
        }
        changed
    }
}

/// As many slots without a shape.
#[tactic(auto, using(crate::proofs::Staging::one_more_slot))]
fn empty_slots(alloc: Global, count: usize) -> Result<Vec<Slot>, NoMemory>
    ensures { IfOk result (λ slots. slots.items ≡ replicate count empty_slot) }
{
    let mut slots = Vec::new(alloc);
    for _ in 0..count {
        slots.push(Slot::empty())?;
    }
    Ok(slots)
}

/// Gives block 0 a shape.
fn begin(slots: &mut Vec<Slot>, shape: Shape)
    ensures { slots.new.items ≡ slice_set slots.old.items 0 (begun shape) }
{
    if !slots.is_empty() {
        slots[0] = Slot {
            shape: Some(shape),
            staged: None,
        };
    }
}

/// Stages a shape.
#[tactic(auto, using(crate::proofs::Staging::set_twice, crate::proofs::Staging::read_at))]
fn stage(slots: &mut Vec<Slot>, at: usize, next: Shape)
    ensures { slots.new.items
        ≡ slice_set slots.old.items at
        (with_staged (slice_index_or slots.old.items at empty_slot) next) }
{
    if at < slots.len() {
        let slot = replace(&mut slots[at], Slot::empty());
        slots[at] = slot.with_staged(next);
    }
}

/// Puts a staged shape in place.
#[tactic(auto, using(crate::proofs::Staging::set_twice, crate::proofs::Staging::read_at))]
fn put(slots: &mut Vec<Slot>, at: usize)
    ensures { slots.new.items
        ≡ slice_set slots.old.items at (placed (slice_index_or slots.old.items at empty_slot)) }
{
    if at < slots.len() {
        let slot = replace(&mut slots[at], Slot::empty());
        slots[at] = slot.placed();
    }
}
