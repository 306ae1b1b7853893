// Flat codes: one activation at the bottom of the stack, with one mark.

ghost use Rattle.std.specs.Prelude.{◌≡◌, ◌≤◌, MatchOption, length, []};
ghost use Rattle.tpal_verify.specs.Shapes.{Shape as Known};
ghost use Rattle.tpal_verify.specs.Walk.{note_flows};
ghost use Rattle.tpal_syntax.specs.declared.notes.Note.TheVariants as note;
ghost use Rattle.tpal_verify.specs.Rules.{note_at, label_kind};
ghost use Rattle.tpal_verify.specs.Fitting.{LabelsFit};
ghost use Rattle.tpal_verify.specs.Flat.{salloc_of, first_cells, cells_of, mark_named, mark_in};
ghost use Rattle.tpal_verify.specs.Flat.{mark_of};
ghost use Rattle.tpal_verify.specs.Flat.{is_mark, is_inner, is_free, is_flat_value, is_cell};
ghost use Rattle.tpal_verify.specs.Flat.{is_flat, is_flat_term, is_loop, is_flat_note};
ghost use Rattle.tpal_verify.specs.Flat.{first_unflat, unflat_in};

use crate::kinds::Kind;
use std::marker::Model;
use tpal_syntax::{Block, CutKind, Instr, Note, Term, Value};

/// What the rules ask of a code: its blocks, the number of cells of its activation, and the cell of
/// its mark, where one is named.
#[derive(Drop)]
pub struct Ground<'a> {
    blocks: &'a [Block],
    cells: u16,
    mark: Option<u16>,
}

impl<'a> Model for Ground<'a> {
    ghost use Rattle.tpal_verify.specs.Flat.{Ground as Asked};

    ghost Value = { Asked };

    ghost view = { λ g. record { blocks = g.blocks.now; cells = g.cells; mark = g.mark } };

    ghost use Rattle.tpal_verify.specs.Fitting.{LabelsFit};

    ghost invariant = { λ g. LabelsFit g.blocks.now };
}

/// The number of a `salloc`.
fn salloc_of(instr: Instr) -> u16
    ensures { result ≡ salloc_of instr }
{
    match instr {
        Instr::Salloc(n) => n,
        Instr::Move { .. }
        | Instr::Calc { .. }
        | Instr::IfJump { .. }
        | Instr::Load { .. }
        | Instr::Store { .. }
        | Instr::Sfree(_)
        | Instr::PrmPush { .. }
        | Instr::PrmPop { .. }
        | Instr::PrmDrop
        | Instr::PrmEmpty(_)
        | Instr::PrmSplit { .. }
        | Instr::JrAlloc { .. }
        | Instr::Fork { .. }
        | Instr::Fetch { .. }
        | Instr::Put { .. }
        | Instr::Rows { .. }
        | Instr::Cols { .. }
        | Instr::Make { .. }
        | Instr::Tick
        | Instr::Trap { .. }
        | Instr::Print(_)
        | Instr::Emit(_) => 0,
    }
}

fn first_cells(body: &[Instr]) -> u16
    ensures { result ≡ first_cells body.now }
{
    match body.first() {
        Some(instr) => salloc_of(*instr),
        None => 0,
    }
}

fn cells_of(blocks: &[Block]) -> u16
    ensures { result ≡ cells_of blocks.now }
{
    match blocks.first() {
        Some(block) => first_cells(block.body.items()),
        None => 0,
    }
}

/// The cell that an instruction names as a mark's.
fn mark_named(instr: Instr) -> Option<u16>
    ensures { result ≡ mark_named instr }
{
    match instr {
        Instr::PrmPush { off, .. } => Some(off),
        Instr::PrmPop { off, .. } => Some(off),
        Instr::Move { .. }
        | Instr::Calc { .. }
        | Instr::IfJump { .. }
        | Instr::Load { .. }
        | Instr::Store { .. }
        | Instr::Salloc(_)
        | Instr::Sfree(_)
        | Instr::PrmDrop
        | Instr::PrmEmpty(_)
        | Instr::PrmSplit { .. }
        | Instr::JrAlloc { .. }
        | Instr::Fork { .. }
        | Instr::Fetch { .. }
        | Instr::Put { .. }
        | Instr::Rows { .. }
        | Instr::Cols { .. }
        | Instr::Make { .. }
        | Instr::Tick
        | Instr::Trap { .. }
        | Instr::Print(_)
        | Instr::Emit(_) => None,
    }
}

fn mark_in(body: &[Instr]) -> Option<u16>
    ensures { result ≡ mark_in body.now }
{
    let mut rest = body;
    while let Some((instr, behind)) = rest.split_first() {
        match mark_named(*instr) {
            Some(cell) => return Some(cell),
            None => rest = behind,
        }
    }
    None
}

fn mark_of(blocks: &[Block]) -> Option<u16>
    ensures { result ≡ mark_of blocks.now }
{
    let mut rest = blocks;
    while let Some((block, behind)) = rest.split_first() {
        match mark_in(block.body.items()) {
            Some(cell) => return Some(cell),
            None => rest = behind,
        }
    }
    None
}

fn is_free(r: u8) -> bool
    ensures { result ≡ is_free r }
{
    r != 31
}

/// Whether a label isn't that of block 0.
pub fn is_inner(label: u32) -> bool
    ensures { result ≡ is_inner label }
{
    label != 0
}

fn is_flat_value(value: Value) -> bool
    ensures { result ≡ is_flat_value value }
{
    match value {
        Value::Reg(_) => true,
        Value::Int(_) => true,
        Value::Label(label) => is_inner(label),
        Value::Nil => true,
    }
}

/// Whether the end of a block is that of a flat code.
pub fn is_flat_term(term: Term) -> bool
    ensures { result ≡ is_flat_term term }
{
    match term {
        Term::Jump(value) => match value {
            Value::Reg(r) => r == 30,
            Value::Int(_) => false,
            Value::Label(label) => is_inner(label),
            Value::Nil => false,
        },
        Term::Halt => true,
        Term::Join(_) => true,
        Term::Leave { rec: _, value: _ } => false,
    }
}

fn is_loop(kind: CutKind) -> bool
    ensures { result ≡ is_loop kind }
{
    match kind {
        CutKind::Loop => true,
        CutKind::Call => false,
    }
}

fn is_flat_note(note: &Note) -> bool
    ensures { result ≡ is_flat_note note.now }
{
    match note {
        Note::Plain => true,
        Note::Ready(handler) => is_inner(*handler),
        Note::Target(target) => is_loop(target.kind) && is_inner(target.comb),
    }
}

impl<'a> Ground<'a> {
    /// The ground of a code's blocks.
    pub fn new(blocks: &'a [Block]) -> Ground<'a>
        requires { LabelsFit blocks.now }
        ensures { result ≡ record {
          blocks = blocks.now;
          cells = cells_of blocks.now;
          mark = mark_of blocks.now;
        } }
    {
        Ground {
            blocks,
            cells: cells_of(blocks),
            mark: mark_of(blocks),
        }
    }

    /// The blocks.
    pub fn blocks(&self) -> &'a [Block]
        ensures blocks { result.now ≡ self.now.blocks }
        ensures few { length self.now.blocks ≤ 65536 }
    {
        self.blocks
    }

    /// The number of cells of the activation.
    pub fn cells(&self) -> u16
        ensures { result ≡ self.now.cells }
    {
        self.cells
    }

    /// The note of the block at a label.
    pub fn note_at(&self, label: u32) -> Option<&'a Note>
        ensures { MatchOption result (note_at self.now label ≡ note.Plain)
            (λ n. note_at self.now label ≡ n.now) }
    {
        match self.blocks.get(label as usize) {
            Some(block) => Some(&block.note),
            None => None,
        }
    }

    /// The handler of the promotion-ready block at a label.
    pub fn handler_at(&self, label: u32) -> Option<u16>
        ensures { MatchOption result ((s : Known) → note_flows (note_at self.now label) s ≡ [])
            (λ h. note_at self.now label ≡ note.Ready h) }
    {
        match self.blocks.get(label as usize) {
            Some(block) => match &block.note {
                Note::Plain => None,
                Note::Ready(handler) => Some(*handler as u16),
                Note::Target(_) => None,
            },
            None => None,
        }
    }

    /// The kind of the word of a label.
    pub fn label_kind(&self, label: u32) -> Kind
        ensures { result ≡ label_kind (note_at self.now label) }
    {
        match self.blocks.get(label as usize) {
            Some(block) => match &block.note {
                Note::Plain => Kind::Any,
                Note::Ready(handler) => Kind::Back(*handler as u16),
                Note::Target(_) => Kind::Any,
            },
            None => Kind::Any,
        }
    }

    fn is_cell(&self, base: u8, off: u16) -> bool
        ensures { result ≡ is_cell self.now.cells base off }
    {
        base == 31 && off < self.cells
    }

    fn is_mark(&self, off: u16) -> bool
        ensures { result ≡ is_mark self.now.mark off }
    {
        match self.mark {
            None => true,
            Some(cell) => cell == off,
        }
    }

    /// Whether an instruction is one of a flat code; `first` tells whether it is the first one of
    /// block 0.
    pub fn is_flat(&self, first: bool, instr: Instr) -> bool
        ensures { result ≡ is_flat self.now first instr }
    {
        match instr {
            Instr::Move { to, value } => is_free(to) && is_flat_value(value),
            Instr::Calc { to, right, .. } => is_free(to) && is_flat_value(right),
            Instr::IfJump { label, .. } => is_inner(label),
            Instr::Load { to, base, off } => is_free(to) && self.is_cell(base, off),
            Instr::Store { base, off, value } => self.is_cell(base, off) && is_flat_value(value),
            Instr::Salloc(_) => first,
            Instr::Sfree(_) => false,
            Instr::PrmPush {
                base,
                off,
                cells,
                split,
            } => {
                self.is_cell(base, off)
                    && cells == self.cells
                    && self.is_mark(off)
                    && is_inner(split)
            }
            Instr::PrmPop { base, off } => self.is_cell(base, off) && self.is_mark(off),
            Instr::PrmDrop => true,
            Instr::PrmEmpty(r) => is_free(r),
            Instr::PrmSplit { base, split } => is_free(base) && is_free(split),
            Instr::JrAlloc { to, target } => is_free(to) && is_inner(target),
            Instr::Fork { child, .. } => is_inner(child),
            Instr::Fetch { to, .. } => is_free(to),
            Instr::Put { .. } => true,
            Instr::Rows { to, .. } => is_free(to),
            Instr::Cols { to, .. } => is_free(to),
            Instr::Make { .. } => true,
            Instr::Tick => true,
            Instr::Trap { .. } => true,
            Instr::Print(_) => true,
            Instr::Emit(_) => true,
        }
    }

    /// The first position at which an instruction or the end isn't flat.
    fn first_unflat(&self, first: bool, body: &[Instr], term: Term) -> Option<usize>
        ensures { result ≡ first_unflat self.now first 0 body.now term }
    {
        let mut leads = first;
        let mut rest = body;
        let mut at = 0;
        while let Some((instr, behind)) = rest.split_first() {
            if !self.is_flat(leads, *instr) {
                return Some(at);
            }
            leads = false;
            at += 1;
            rest = behind;
        }
        if is_flat_term(term) { None } else { Some(at) }
    }

    /// The first position of a block at which it isn't flat; the note's is 0.
    pub fn unflat_in(&self, first: bool, block: &Block) -> Option<usize>
        ensures { result ≡ unflat_in self.now first block.now }
    {
        if is_flat_note(&block.note) {
            self.first_unflat(first, block.body.items(), block.term)
        } else {
            Some(0)
        }
    }
}
