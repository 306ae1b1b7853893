// Cells that follow one another row by row: flat until they are cut, then in boxes.

ghost use Rattle.std.specs.Prelude.{◌≡◌, ℕ, ◌+◌, ◌-◌, ◌<◌, ◌≤◌, ◌==◌, ◌&&◌, if◌then◌else◌, nat_lt};
ghost use Rattle.std.specs.Prelude.{Some, None, true, IsTrue, IsSome, IfOk, OnOk, OnErr, is_some};
ghost use Rattle.std.specs.Prelude.{length, [], false};
ghost use Rattle.std.specs.Bool.{OnTrue, OnFalse};
ghost use Rattle.slices.specs.Spans.{flat_span, stretch_at, span_at, span_start, or_else, count};
ghost use Rattle.slices.specs.Spans.{between, is_flat, HasAll};

use crate::boxes::{CHUNK, read};
use crate::chunks::Chunks;
use crate::stretches::Stretch;
use std::alloc::{AllocError, Global};
use std::mem::{replace, swap};

/// Cells at positions that follow one another. Those of a table that was never cut are flat, and so
/// are a few.
#[derive(Drop)]
pub(crate) enum Span {
    Flat(Stretch),
    Cut(Chunks),
}

impl Span {
    /// All cells of a table, row by row.
    pub(crate) fn whole(cells: Vec<i64>) -> Span
        ensures { result ≡ flat_span cells }
    {
        Span::Flat(Stretch { start: 0, cells })
    }

    pub(crate) fn none(alloc: Global) -> Span
        ensures { (i : ℕ) → span_at result i ≡ None }
    {
        Span::whole(Vec::new(alloc))
    }

    /// The allocator that its buffers were made with.
    pub(crate) fn alloc(&self) -> Global {
        match self {
            Span::Flat(flat) => *flat.cells.allocator(),
            Span::Cut(cut) => *cut.list.allocator(),
        }
    }

    #[inline(always)]
    pub(crate) fn get(&self, at: usize) -> Option<i64>
        ensures { result ≡ span_at self.now at }
    {
        match self {
            Span::Flat(flat) => flat.get(at),
            Span::Cut(cut) => cut.get(at),
        }
    }

    /// Whether its cells are flat.
    pub(crate) fn is_flat(&self) -> bool
        ensures { result ≡ is_flat self.now }
    {
        match self {
            Span::Flat(_) => true,
            Span::Cut(_) => false,
        }
    }

    /// Whether it has all cells of a table of `end` cells, of which it tells nothing where there
    /// are none.
    pub(crate) fn has_all(&self, end: usize) -> bool
        ensures { OnTrue result (HasAll end self.now) }
    {
        match self {
            Span::Flat(flat) => flat.start == 0 && flat.cells.len() >= end,
            Span::Cut(cut) => {
                cut.start == 0 && cut.end >= end && end > 0 && (end - 1) / CHUNK < cut.list.len()
            }
        }
    }

    /// `get` where all cells are known to be here, flat.
    #[inline(always)]
    pub(crate) fn get_flat(&self, at: usize) -> i64
        requires flat { is_flat self.now ≡ true }
        requires here { HasAll (at + 1) self.now }
        ensures { Some result ≡ span_at self.now at }
    {
        match self {
            Span::Flat(flat) => flat.cells[at],
            Span::Cut(_) => unreachable!(),
        }
    }

    /// `get` where all cells are known to be here, in boxes.
    #[inline(always)]
    pub(crate) fn get_cut(&self, at: usize) -> i64
        requires cut { is_flat self.now ≡ false }
        requires here { HasAll (at + 1) self.now }
        ensures { Some result ≡ span_at self.now at }
    {
        match self {
            Span::Cut(cut) => read(&cut.list[at / CHUNK], at),
            Span::Flat(_) => unreachable!(),
        }
    }

    /// Whether the position is here; it is set then.
    #[inline(always)]
    pub(crate) fn put(&mut self, at: usize, value: i64) -> bool
        ensures found { result ≡ is_some (span_at self.old at) }
        ensures cells { (i : ℕ)
            → span_at self.new i
            ≡ (if result && i == at then Some value else span_at self.old i) }
    {
        match self {
            Span::Flat(flat) => flat.put(at, value),
            Span::Cut(cut) => cut.put(at, value),
        }
    }

    pub(crate) fn copy_between(
        &self,
        alloc: Global,
        low: usize,
        high: usize,
    ) -> Result<Span, AllocError>
        ensures { IfOk result
            (λ span. (i : ℕ) → span_at span i ≡ between low high i (span_at self.now i)) }
    {
        match self {
            Span::Flat(flat) => Ok(Span::Flat(flat.copy_between(alloc, low, high)?)),
            Span::Cut(cut) => Ok(Span::Cut(cut.copy_between(alloc, low, high)?)),
        }
    }

    /// Keeps what is below position `at`, and gives what is from there on.
    pub(crate) fn split_off(&mut self, at: usize) -> Result<Span, AllocError>
        ensures kept { OnOk result
            ((i : ℕ) → span_at self.new i ≡ (if nat_lt i at then span_at self.old i else None)) }
        ensures given { IfOk result
            (λ upper. (i : ℕ)
            → span_at upper i ≡ (if nat_lt i at then None else span_at self.old i)) }
        ensures err { OnErr result ((i : ℕ) → span_at self.new i ≡ span_at self.old i) }
    {
        if at <= self.start() {
            let none = Span::none(self.alloc());
            return Ok(replace(self, none));
        }
        match self {
            Span::Flat(flat) => split_flat(flat, at),
            Span::Cut(cut) => Ok(Span::Cut(cut.split_off(at)?)),
        }
    }

    /// Where its cells begin, if it has any.
    fn start(&self) -> usize
        ensures { result ≡ span_start self.now }
    {
        match self {
            Span::Flat(flat) => flat.start,
            Span::Cut(cut) => cut.start,
        }
    }

    /// How many cells from a position on are here, one after another.
    pub(crate) fn reach(&self, at: usize) -> usize
        ensures here { (i : ℕ) → at ≤ i → i < at + result → IsSome (span_at self.now i) }
        ensures none { result ≡ 0 → span_at self.now at ≡ None }
    {
        match self {
            Span::Flat(flat) => flat.reach(at),
            Span::Cut(cut) => cut.reach(at),
        }
    }

    /// Whether a position lies in both.
    pub(crate) fn meets(&self, other: &Span) -> bool
        ensures yes { OnTrue result ((i : ℕ) × IsSome (span_at self.now i)
            × IsSome (span_at other.now i)) }
        ensures no { OnFalse result
            ((i : ℕ) → IsSome (span_at self.now i) → IsSome (span_at other.now i) → ⊥) }
    {
        let low = self.start().max(other.start());
        self.reach(low) > 0 && other.reach(low) > 0
    }

    /// Whether it has no cell.
    pub(crate) fn is_empty(&self) -> bool
        ensures { OnTrue result ((i : ℕ) → span_at self.now i ≡ None) }
    {
        match self {
            Span::Flat(flat) => flat.cells.is_empty(),
            Span::Cut(cut) => cut.start >= cut.end,
        }
    }

    /// Whether its cells end where a span from a position on begins.
    fn ends_at(&self, at: usize) -> bool {
        match self {
            Span::Flat(flat) => at >= flat.start && at - flat.start == flat.cells.len(),
            Span::Cut(cut) => at == cut.end,
        }
    }

    /// Puts its cells into boxes, where memory allows it.
    fn cut_up(&mut self)
        ensures { (i : ℕ) → span_at self.new i ≡ span_at self.old i }
    {
        if let Span::Flat(flat) = self
            && let Some(end) = flat.start.checked_add(flat.cells.len())
            && let Ok(cut) = Chunks::of(*flat.cells.allocator(), flat.start, end, &flat.cells)
        {
            *self = Span::Cut(cut);
        }
    }

    /// Takes the other's cells in behind its own, where they follow and memory allows it.
    fn take_in(&mut self, other: &mut Span) -> bool
        ensures joined { OnTrue result
            ((i : ℕ) → span_at self.new i ≡ or_else (span_at self.old i) (span_at other.old i)) }
        ensures emptied { OnTrue result ((i : ℕ) → span_at other.new i ≡ None) }
        ensures counted { OnTrue result
            ((i : ℕ)
            → count (span_at self.new i)
            ≡ count (span_at self.old i) + count (span_at other.old i)) }
        ensures apart { OnFalse result
            ((i : ℕ)
            → (span_at self.new i ≡ span_at self.old i)
            × (span_at other.new i ≡ span_at other.old i)) }
    {
        if !self.ends_at(other.start()) {
            return false;
        }
        if !self.is_few_with(other) {
            self.cut_up();
            other.cut_up();
        }
        self.take_in_alike(other)
    }

    /// Whether both are flat and have so few cells that a box would have them all.
    fn is_few_with(&self, other: &Span) -> bool {
        match (self, other) {
            (Span::Flat(flat), Span::Flat(next)) => {
                flat.cells.len() <= CHUNK && next.cells.len() <= CHUNK - flat.cells.len()
            }
            _ => false,
        }
    }

    fn take_in_alike(&mut self, other: &mut Span) -> bool
        ensures joined { OnTrue result
            ((i : ℕ) → span_at self.new i ≡ or_else (span_at self.old i) (span_at other.old i)) }
        ensures emptied { OnTrue result ((i : ℕ) → span_at other.new i ≡ None) }
        ensures counted { OnTrue result
            ((i : ℕ)
            → count (span_at self.new i)
            ≡ count (span_at self.old i) + count (span_at other.old i)) }
        ensures apart { OnFalse result
            ((i : ℕ)
            → (span_at self.new i ≡ span_at self.old i)
            × (span_at other.new i ≡ span_at other.old i)) }
    {
        match (self, other) {
            (Span::Flat(flat), Span::Flat(next)) => flat.take_in(next),
            (Span::Cut(cut), Span::Cut(next)) => cut.take_in(next),
            _ => false,
        }
    }

    /// Joins another's cells to its own, where one follows the other or holds nothing, and memory
    /// allows it.
    pub(crate) fn join(&mut self, other: &mut Span) -> bool
        ensures emptied { OnTrue result ((i : ℕ) → span_at other.new i ≡ None) }
        ensures counted { OnTrue result
            ((i : ℕ)
            → count (span_at self.new i)
            ≡ count (span_at self.old i) + count (span_at other.old i)) }
        ensures joined { OnTrue result
            ((i : ℕ)
            → count (span_at self.old i) + count (span_at other.old i) ≤ 1
            → span_at self.new i ≡ or_else (span_at self.old i) (span_at other.old i)) }
        ensures apart { OnFalse result
            ((i : ℕ)
            → (span_at self.new i ≡ span_at self.old i)
            × (span_at other.new i ≡ span_at other.old i)) }
    {
        if self.is_empty() {
            swap(self, other);
            return true;
        }
        if other.is_empty() {
            return true;
        }
        if self.take_in(other) {
            return true;
        }
        if other.take_in(self) {
            swap(self, other);
            return true;
        }
        false
    }
}

/// Keeps the cells below position `at`, and gives those from there on: flat if they all are few,
/// otherwise in boxes.
fn split_flat(flat: &mut Stretch, at: usize) -> Result<Span, AllocError>
    requires { flat.old.start ≤ at }
    ensures kept { OnOk result
        ((i : ℕ) → stretch_at flat.new i ≡ (if nat_lt i at then stretch_at flat.old i else None)) }
    ensures given { IfOk result
        (λ upper. (i : ℕ)
        → span_at upper i ≡ (if nat_lt i at then None else stretch_at flat.old i)) }
    ensures err { OnErr result ((i : ℕ) → stretch_at flat.new i ≡ stretch_at flat.old i) }
{
    let upper = upper_of(flat, at)?;
    flat.keep_below(at);
    Ok(upper)
}

/// A copy of the cells from position `at` on, flat if all are few, otherwise in boxes.
fn upper_of(flat: &Stretch, at: usize) -> Result<Span, AllocError>
    requires { flat.now.start ≤ at }
    ensures { IfOk result
        (λ upper.
        (i : ℕ) → span_at upper i ≡ (if nat_lt i at then None else stretch_at flat.now i)) }
{
    let alloc = *flat.cells.allocator();
    let len = flat.cells.len();
    let cells = &flat.cells[(at - flat.start).min(len)..len];
    if len > CHUNK
        && let Some(end) = at.checked_add(cells.len())
    {
        return Ok(Span::Cut(Chunks::of(alloc, at, end, cells)?));
    }
    Ok(Span::Flat(Stretch {
        start: at,
        cells: Vec::from_slice(alloc, cells)?,
    }))
}
