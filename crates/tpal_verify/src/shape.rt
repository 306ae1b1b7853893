// Shapes: what is known of a task at a place.

ghost use Rattle.std.specs.Prelude.{◌≡◌, IfOk, Some, map, false, slice_set, slice_index_or};
ghost use Rattle.std.specs.List.{zip, list_all};
ghost use Rattle.tpal_verify.specs.Kinds.{kind_below, parted, kept, unmet};
ghost use Rattle.tpal_verify.specs.Shapes.{kinds_below, kinds_joined, shape_below, joined};
ghost use Rattle.tpal_verify.specs.Shapes.{kind_at, cell_at, with_kind, with_cell, with_mark};
ghost use Rattle.tpal_verify.specs.Shapes.{first_shape, handler_shape, root_shape, side_shape};
ghost use Rattle.tpal_verify.specs.Shapes.{left_shape, child_shape, behind_shape};

use crate::kinds::{
    EndFact, Kind, MarkFact, is_below, is_end_below, is_grant_below, is_mark_below, is_met_below,
    joined_kind, kept, parted, unmet,
};
use std::alloc::{AllocError, Global};
use std::marker::Model;

/// What is known of a task at a place: a kind for each of `r0` to `r30` and for each cell of the
/// activation, and four facts.
#[derive(Drop)]
pub struct Shape {
    registers: Vec<Kind>,
    cells: Vec<Kind>,
    at_end: EndFact,
    mark: MarkFact,
    granted: bool,
    met: Option<u32>,
}

impl Model for Shape {
    ghost use Rattle.tpal_verify.specs.Shapes.{Shape as Known};

    ghost Value = { Known };

    ghost view = { λ s. record {
      registers = s.registers.items;
      cells = s.cells.items;
      at_end = s.at_end;
      mark = s.mark;
      granted = s.granted;
      met = s.met;
    } };
}

/// Whether each kind is below the one at its place, as far as both lists go.
fn pairs_below(end: EndFact, lower: &[Kind], upper: &[Kind]) -> bool
    ensures { result ≡ list_all (λ p. kind_below end p.0 p.1) (zip lower.now upper.now) }
{
    lower.iter().zip(upper).all(|(a, b)| is_below(end, *a, *b))
}

/// Whether each kind is below the one at its place.
pub(crate) fn are_below(end: EndFact, lower: &[Kind], upper: &[Kind]) -> bool
    ensures { result ≡ kinds_below end lower.now upper.now }
{
    if lower.len() < upper.len() {
        return false;
    }
    pairs_below(end, lower, upper)
}

/// The least kinds above both lists', in shapes with these ends.
fn joined_kinds(
    alloc: Global,
    e: EndFact,
    f: EndFact,
    kinds: &[Kind],
    others: &[Kind],
) -> Result<Vec<Kind>, AllocError>
    ensures { IfOk result (λ both. both.items ≡ kinds_joined e f kinds.now others.now) }
{
    kinds
        .iter()
        .zip(others)
        .map(|(a, b)| joined_kind(e, f, *a, *b))
        .collect(alloc)
}

fn parted_kinds(alloc: Global, kinds: &[Kind]) -> Result<Vec<Kind>, AllocError>
    ensures { IfOk result (λ new. new.items ≡ map parted kinds.now) }
{
    kinds.iter().map(|kind| parted(*kind)).collect(alloc)
}

fn kept_kinds(alloc: Global, kinds: &[Kind]) -> Result<Vec<Kind>, AllocError>
    ensures { IfOk result (λ new. new.items ≡ map kept kinds.now) }
{
    kinds.iter().map(|kind| kept(*kind)).collect(alloc)
}

fn unmet_kinds(alloc: Global, kinds: &[Kind]) -> Result<Vec<Kind>, AllocError>
    ensures { IfOk result (λ new. new.items ≡ map unmet kinds.now) }
{
    kinds.iter().map(|kind| unmet(*kind)).collect(alloc)
}

pub(crate) fn copied(alloc: Global, kinds: &[Kind]) -> Result<Vec<Kind>, AllocError>
    ensures { IfOk result (λ copy. copy.items ≡ kinds.now) }
{
    kinds.iter().copied().collect(alloc)
}

pub(crate) fn set(kinds: &mut Vec<Kind>, at: usize, kind: Kind)
    ensures { kinds.new.items ≡ slice_set kinds.old.items at kind }
{
    if at < kinds.len() {
        kinds[at] = kind;
    }
}

pub(crate) fn kind_in(kinds: &[Kind], at: usize) -> Kind
    ensures { result ≡ slice_index_or kinds.now at Kind.Any }
{
    match kinds.get(at) {
        Some(kind) => *kind,
        None => Kind::Any,
    }
}

impl Shape {
    /// Where the run begins, with so many cells.
    pub fn first(alloc: Global, cells: u16) -> Result<Shape, AllocError>
        ensures { IfOk result (λ s. s ≡ first_shape cells) }
    {
        Ok(Shape {
            registers: vec![in alloc; Kind::Empty; 31]?,
            cells: vec![in alloc; Kind::Empty; cells as usize]?,
            at_end: EndFact::Root,
            mark: MarkFact::Clear,
            granted: false,
            met: None,
        })
    }

    /// A copy.
    pub fn copy(&self, alloc: Global) -> Result<Shape, AllocError>
        ensures { IfOk result (λ s. s ≡ self.now) }
    {
        Ok(Shape {
            registers: copied(alloc, &self.registers)?,
            cells: copied(alloc, &self.cells)?,
            at_end: self.at_end,
            mark: self.mark,
            granted: self.granted,
            met: self.met,
        })
    }

    /// Whether what is known by `upper` is known by this shape.
    pub fn is_below(&self, upper: &Shape) -> bool
        ensures { result ≡ shape_below self.now upper.now }
    {
        are_below(self.at_end, &self.registers, &upper.registers)
            && are_below(self.at_end, &self.cells, &upper.cells)
            && is_end_below(self.at_end, upper.at_end)
            && is_mark_below(self.mark, upper.mark)
            && is_grant_below(self.granted, upper.granted)
            && is_met_below(self.met, upper.met)
    }

    /// What is known by both shapes.
    pub fn joined(&self, alloc: Global, other: &Shape) -> Result<Shape, AllocError>
        ensures { IfOk result (λ s. s ≡ joined self.now other.now) }
    {
        let e = self.at_end;
        let f = other.at_end;
        Ok(Shape {
            registers: joined_kinds(alloc, e, f, &self.registers, &other.registers)?,
            cells: joined_kinds(alloc, e, f, &self.cells, &other.cells)?,
            at_end: if is_end_below(f, e) {
                e
            } else {
                EndFact::Either
            },
            mark: if is_mark_below(other.mark, self.mark) {
                self.mark
            } else {
                MarkFact::Maybe
            },
            granted: self.granted && other.granted,
            met: if is_met_below(other.met, self.met) {
                self.met
            } else {
                None
            },
        })
    }

    /// Whether the task ends the run, a side, or one of both.
    pub fn at_end(&self) -> EndFact
        ensures { result ≡ self.now.at_end }
    {
        self.at_end
    }

    /// Whether its mark stands.
    pub fn mark(&self) -> MarkFact
        ensures { result ≡ self.now.mark }
    {
        self.mark
    }

    /// Whether it surely has a grant.
    pub fn granted(&self) -> bool
        ensures { result ≡ self.now.granted }
    {
        self.granted
    }

    /// The join target whose record it surely has met.
    pub fn met(&self) -> Option<u32>
        ensures { result ≡ self.now.met }
    {
        self.met
    }

    /// The kinds of `r0` to `r30`.
    pub fn registers(&self) -> &[Kind]
        ensures { result.now ≡ self.now.registers }
    {
        &self.registers
    }

    /// The kinds of the cells.
    pub fn cells(&self) -> &[Kind]
        ensures { result.now ≡ self.now.cells }
    {
        &self.cells
    }

    /// The kind of a register's word.
    pub fn kind_at(&self, r: u8) -> Kind
        ensures { result ≡ kind_at self.now r }
    {
        if r == 31 {
            return Kind::Number;
        }
        kind_in(&self.registers, r as usize)
    }

    /// The kind of a cell's word.
    pub fn cell_at(&self, off: u16) -> Kind
        ensures { result ≡ cell_at self.now off }
    {
        kind_in(&self.cells, off as usize)
    }

    /// Gives a register another kind.
    pub fn set_kind(&mut self, r: u8, kind: Kind)
        ensures { self.new ≡ with_kind self.old r kind }
    {
        set(&mut self.registers, r as usize, kind);
    }

    /// Gives a cell another kind.
    pub fn set_cell(&mut self, off: u16, kind: Kind)
        ensures { self.new ≡ with_cell self.old off kind }
    {
        set(&mut self.cells, off as usize, kind);
    }

    /// Sets what is known of the mark.
    pub fn set_mark(&mut self, mark: MarkFact)
        ensures { self.new ≡ with_mark self.old mark }
    {
        self.mark = mark;
    }

    /// Becomes the shape in the handler of a promotion-ready block.
    pub fn enter_handler(&mut self, handler: u16)
        ensures { self.new ≡ handler_shape handler self.old }
    {
        set(&mut self.registers, 30, Kind::Back(handler));
        self.mark = MarkFact::Marked;
        self.granted = true;
    }

    /// Becomes the shape where a test showed that `r` is nil, and that the task ends the run.
    pub fn end_run(&mut self, r: u8)
        ensures { self.new ≡ root_shape r self.old }
    {
        set(&mut self.registers, r as usize, Kind::Empty);
        self.at_end = EndFact::Root;
    }

    /// Becomes the shape where a test showed that `r` isn't nil, and that the task ends a side.
    pub fn end_side(&mut self, r: u8)
        ensures { self.new ≡ side_shape r self.old }
    {
        set(&mut self.registers, r as usize, Kind::Own);
        self.at_end = EndFact::Side;
    }

    /// The shape in the left of a fork under the record in `rec`.
    pub fn left(&self, alloc: Global, rec: u8) -> Result<Shape, AllocError>
        ensures { IfOk result (λ s. s ≡ left_shape rec self.now) }
    {
        let mut registers = parted_kinds(alloc, &self.registers)?;
        set(&mut registers, rec as usize, Kind::Own);
        let cells = parted_kinds(alloc, &self.cells)?;
        Ok(Shape {
            registers,
            cells,
            at_end: EndFact::Side,
            mark: self.mark,
            granted: false,
            met: None,
        })
    }

    /// The shape behind a join of the met record.
    pub fn behind(&self, alloc: Global) -> Result<Shape, AllocError>
        ensures { IfOk result (λ s. s ≡ behind_shape self.now) }
    {
        Ok(Shape {
            registers: unmet_kinds(alloc, &self.registers)?,
            cells: unmet_kinds(alloc, &self.cells)?,
            at_end: self.at_end,
            mark: self.mark,
            granted: self.granted,
            met: None,
        })
    }

    /// The shape of a task that has met the record of a join target: with these registers, the
    /// kinds of cells that the fork left over, and the end before the fork.
    pub fn met_at(
        alloc: Global,
        registers: Vec<Kind>,
        before: &Shape,
        target: u32,
    ) -> Result<Shape, AllocError>
        ensures { IfOk result (λ s. s ≡ record {
          registers = registers.items;
          cells = map kept before.now.cells;
          at_end = before.now.at_end;
          mark = MarkFact.Clear;
          granted = false;
          met = Some target;
        }) }
    {
        let cells = kept_kinds(alloc, &before.cells)?;
        Ok(Shape {
            registers,
            cells,
            at_end: before.at_end,
            mark: MarkFact::Clear,
            granted: false,
            met: Some(target),
        })
    }
}
