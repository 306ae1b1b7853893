// The cells of a table that are all in boxes, from its first position on.

ghost use Rattle.std.specs.Prelude.{◌≡◌, ℕ, ◌+◌, ◌==◌, Some, if◌then◌else◌, length};
ghost use Rattle.slices.specs.Spans.{span_at};
ghost use Rattle.slices.specs.Stored.{full_span, HasBelow};

use crate::boxes::{CHUNK, Chunk, read, write};

/// The cells at the positions below `end`, in boxes. A cell is found by its position alone.
#[derive(Drop)]
pub(crate) struct Full {
    pub(crate) end: usize,
    pub(crate) list: Vec<Chunk>,
}

impl Full {
    #[inline(always)]
    pub(crate) fn get(&self, at: usize) -> i64
        requires { HasBelow (at + 1) self.now }
        ensures { Some result ≡ span_at (full_span self.now) at }
    {
        read(&self.list[at / CHUNK], at)
    }

    #[inline(always)]
    pub(crate) fn put(&mut self, at: usize, value: i64)
        requires { HasBelow (at + 1) self.old }
        ensures cells { (i : ℕ)
            → span_at (full_span self.new) i
            ≡ (if i == at then Some value else span_at (full_span self.old) i) }
        ensures end { self.new.end ≡ self.old.end }
        ensures len { length self.new.list.items ≡ length self.old.list.items }
    {
        // As a slice, so that the box is the one that `get` reads, and loaded once.
        let list = self.list.as_mut_slice();
        write(&mut list[at / CHUNK], at, value);
    }
}
