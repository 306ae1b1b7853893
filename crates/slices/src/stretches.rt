// One flat buffer of cells that follow one another row by row.

ghost use Rattle.std.specs.Prelude.{◌≡◌, ℕ, ◌+◌, ◌-◌, ◌<◌, ◌≤◌, ◌==◌, ◌&&◌, if◌then◌else◌, nat_lt};
ghost use Rattle.std.specs.Prelude.{Some, None, IsTrue, IsSome, IfOk, is_some, length, []};
ghost use Rattle.std.specs.Bool.{OnTrue, OnFalse};
ghost use Rattle.slices.specs.Spans.{slot, stretch_at, or_else, count, between};

use std::alloc::{AllocError, Global};

/// The cells from position `start` on, where positions count a table's cells row by row.
#[derive(Drop)]
pub(crate) struct Stretch {
    pub(crate) start: usize,
    pub(crate) cells: Vec<i64>,
}

impl Stretch {
    #[inline(always)]
    pub(crate) fn get(&self, at: usize) -> Option<i64>
        ensures { result ≡ stretch_at self.now at }
    {
        if at < self.start {
            return None;
        }
        let index = at - self.start;
        if index < self.cells.len() {
            Some(self.cells[index])
        } else {
            None
        }
    }

    /// Whether the position is here; it is set then.
    #[inline(always)]
    pub(crate) fn put(&mut self, at: usize, value: i64) -> bool
        ensures found { result ≡ is_some (stretch_at self.old at) }
        ensures cells { (i : ℕ)
            → stretch_at self.new i
            ≡ (if result && i == at then Some value else stretch_at self.old i) }
    {
        if at < self.start {
            return false;
        }
        let index = at - self.start;
        if index >= self.cells.len() {
            return false;
        }
        self.cells[index] = value;
        true
    }

    pub(crate) fn copy_between(
        &self,
        alloc: Global,
        low: usize,
        high: usize,
    ) -> Result<Stretch, AllocError>
        ensures { IfOk result
            (λ part. (i : ℕ) → stretch_at part i ≡ between low high i (stretch_at self.now i)) }
    {
        let start = low.max(self.start);
        let from = (start - self.start).min(self.cells.len());
        let to = high
            .saturating_sub(self.start)
            .min(self.cells.len())
            .max(from);
        Ok(Stretch {
            start,
            cells: Vec::from_slice(alloc, &self.cells[from..to])?,
        })
    }

    /// Drops what is here from position `high` on.
    pub(crate) fn keep_below(&mut self, high: usize)
        ensures { (i : ℕ)
            → stretch_at self.new i ≡ (if nat_lt i high then stretch_at self.old i else None) }
    {
        self.cells.truncate(high.saturating_sub(self.start));
    }

    /// How many cells from a position on are here, one after another.
    pub(crate) fn reach(&self, at: usize) -> usize
        ensures here { (i : ℕ) → at ≤ i → i < at + result → IsSome (stretch_at self.now i) }
        ensures none { result ≡ 0 → stretch_at self.now at ≡ None }
    {
        if at < self.start {
            return 0;
        }
        self.cells.len().saturating_sub(at - self.start)
    }

    /// Takes the other's cells in behind its own, where they follow and memory allows it.
    pub(crate) fn take_in(&mut self, other: &mut Stretch) -> bool
        ensures joined { OnTrue result
            ((i : ℕ)
            → stretch_at self.new i ≡ or_else (stretch_at self.old i) (stretch_at other.old i)) }
        ensures emptied { OnTrue result ((i : ℕ) → stretch_at other.new i ≡ None) }
        ensures counted { OnTrue result
            ((i : ℕ)
            → count (stretch_at self.new i)
            ≡ count (stretch_at self.old i) + count (stretch_at other.old i)) }
        ensures apart { OnFalse result
            ((i : ℕ)
            → (stretch_at self.new i ≡ stretch_at self.old i)
            × (stretch_at other.new i ≡ stretch_at other.old i)) }
    {
        if other.start < self.start || other.start - self.start != self.cells.len() {
            return false;
        }
        match self.cells.append(&mut other.cells) {
            Ok(()) => true,
            Err(_) => false,
        }
    }
}
