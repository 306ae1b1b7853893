// Cells in boxes of 256. The box of a position is told by the position alone, so that a run of
// cells is cut and put together again by moving boxes; only one that a cut goes through is copied.

ghost use Rattle.std.specs.Prelude.{◌≡◌, ℕ, ◌+◌, ◌-◌, ◌*◌, ◌/◌, ◌%◌, ◌<◌, ◌≤◌, ◌==◌, ◌&&◌};
ghost use Rattle.std.specs.Prelude.{if◌then◌else◌, nat_lt, Some, None, IsTrue, IsSome, IfOk};
ghost use Rattle.std.specs.Prelude.{IfSome, OnOk, OnErr, MatchOption, is_some, length, []};
ghost use Rattle.std.specs.Prelude.{slice_get, ◌++◌, ◌∷◌, take, drop, slice_index_or};
ghost use Rattle.std.specs.Bool.{OnTrue, OnFalse};
ghost use Rattle.std.specs.Vec.{vec_len, vec_capacity};
ghost use Rattle.slices.specs.Spans.{slot, chunks_at, or_else, count, between, number, in_list};

use crate::boxes::{
    CHUNK, Chunk, chunk_of, copies_of, joined, lower_copy, put_behind, read, write,
};
use std::alloc::{AllocError, Global};
use std::mem::replace;

/// The cells at the positions from `start` up to `end`, where positions count a table's cells row
/// by row. The first box has the cell at `start`, and a cell stands in its box at the remainder of
/// its position by 256; what the first and the last box have beside means nothing.
#[derive(Drop)]
pub(crate) struct Chunks {
    pub(crate) start: usize,
    pub(crate) end: usize,
    pub(crate) list: Vec<Chunk>,
}

impl Chunks {
    /// These cells, of which the first stands at position `start`, and the last before `end`.
    pub(crate) fn of(
        alloc: Global,
        start: usize,
        end: usize,
        cells: &[i64],
    ) -> Result<Chunks, AllocError>
        requires { end ≡ start + length cells.now }
        ensures { IfOk result (λ chunks. (i : ℕ) → chunks_at chunks i ≡ slot start cells.now i) }
    {
        let mut list = Vec::with_capacity(alloc, cells.len() / CHUNK + 2)?;
        let mut done = 0;
        while done < cells.len() {
            let skip = (start + done) % CHUNK;
            let n = (CHUNK - skip).min(cells.len() - done);
            let chunk = chunk_of(alloc, skip, &cells[done..done + n])?;
            list.push(chunk)?;
            done += n;
        }
        Ok(Chunks { start, end, list })
    }

    #[inline(always)]
    pub(crate) fn get(&self, at: usize) -> Option<i64>
        ensures { result ≡ chunks_at self.now at }
    {
        if at < self.start || at >= self.end {
            return None;
        }
        let index = at / CHUNK - self.start / CHUNK;
        if index < self.list.len() {
            Some(read(&self.list[index], at))
        } else {
            None
        }
    }

    /// Whether the position is here; it is set then.
    #[inline(always)]
    pub(crate) fn put(&mut self, at: usize, value: i64) -> bool
        ensures found { result ≡ is_some (chunks_at self.old at) }
        ensures cells { (i : ℕ)
            → chunks_at self.new i
            ≡ (if result && i == at then Some value else chunks_at self.old i) }
    {
        if at < self.start || at >= self.end {
            return false;
        }
        let index = at / CHUNK - self.start / CHUNK;
        if index >= self.list.len() {
            return false;
        }
        write(&mut self.list[index], at, value);
        true
    }

    /// How many cells from a position on are here, one after another.
    pub(crate) fn reach(&self, at: usize) -> usize
        ensures here { (i : ℕ) → at ≤ i → i < at + result → IsSome (chunks_at self.now i) }
        ensures none { result ≡ 0 → chunks_at self.now at ≡ None }
    {
        if at < self.start || at >= self.end {
            return 0;
        }
        let first = self.start / CHUNK;
        if (self.end - 1) / CHUNK - first < self.list.len() {
            return self.end - at;
        }
        if at / CHUNK - first < self.list.len() {
            return 1;
        }
        0
    }

    /// A copy of what is here from position `low` up to `high`.
    pub(crate) fn copy_between(
        &self,
        alloc: Global,
        low: usize,
        high: usize,
    ) -> Result<Chunks, AllocError>
        ensures { IfOk result
            (λ part. (i : ℕ) → chunks_at part i ≡ between low high i (chunks_at self.now i)) }
    {
        let start = low.max(self.start);
        let end = high.min(self.end);
        if start >= end {
            return Ok(Chunks {
                start: 0,
                end: 0,
                list: Vec::new(alloc),
            });
        }
        let len = self.list.len();
        let from = (start / CHUNK - self.start / CHUNK).min(len);
        let to = ((end - 1) / CHUNK - self.start / CHUNK + 1).min(len);
        let list = copies_of(alloc, &self.list[from..to])?;
        Ok(Chunks { start, end, list })
    }

    /// Keeps what is below position `at`, and gives what is from there on.
    pub(crate) fn split_off(&mut self, at: usize) -> Result<Chunks, AllocError>
        requires { self.old.start ≤ at }
        ensures kept { OnOk result
            ((i : ℕ)
            → chunks_at self.new i ≡ (if nat_lt i at then chunks_at self.old i else None)) }
        ensures given { IfOk result
            (λ upper. (i : ℕ)
            → chunks_at upper i ≡ (if nat_lt i at then None else chunks_at self.old i)) }
        ensures err { OnErr result (self.new ≡ self.old) }
    {
        let alloc = *self.list.allocator();
        if at >= self.end {
            return Ok(Chunks {
                start: 0,
                end: 0,
                list: Vec::new(alloc),
            });
        }
        let index = (at / CHUNK - self.start / CHUNK).min(self.list.len());
        let lower = lower_copy(alloc, &self.list, index, at)?;
        let list = self.list.split_off(index)?;
        put_behind(&mut self.list, lower);
        let end = replace(&mut self.end, at);
        Ok(Chunks {
            start: at,
            end,
            list,
        })
    }

    /// Takes the other's cells in behind its own, where they follow and memory allows it.
    pub(crate) fn take_in(&mut self, other: &mut Chunks) -> bool
        ensures joined { OnTrue result
            ((i : ℕ)
            → chunks_at self.new i ≡ or_else (chunks_at self.old i) (chunks_at other.old i)) }
        ensures emptied { OnTrue result ((i : ℕ) → chunks_at other.new i ≡ None) }
        ensures counted { OnTrue result
            ((i : ℕ)
            → count (chunks_at self.new i)
            ≡ count (chunks_at self.old i) + count (chunks_at other.old i)) }
        ensures apart { OnFalse result
            ((i : ℕ)
            → (chunks_at self.new i ≡ chunks_at self.old i)
            × (chunks_at other.new i ≡ chunks_at other.old i)) }
    {
        let start = self.start;
        let end = self.end;
        if start >= end || other.start != end || other.end <= end {
            return false;
        }
        if (end - 1) / CHUNK - start / CHUNK + 1 != self.list.len() {
            return false;
        }
        if !joined(&mut self.list, &mut other.list, start, end) {
            return false;
        }
        self.end = replace(&mut other.end, end);
        true
    }
}
