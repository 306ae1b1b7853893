// The pieces of one value, owned by it or shared with others.

ghost use Rattle.std.specs.Prelude.{◌≡◌, ℕ, ◌+◌, ◌<◌, ◌≤◌, ◌==◌, ◌&&◌, if◌then◌else◌, nat_le};
ghost use Rattle.std.specs.Prelude.{nat_lt, None, Some, true, false, is_some, IsSome, IfOk, IfErr};
ghost use Rattle.std.specs.Prelude.{OnOk, OnErr, IfSome, IfNone, [], ◌∷◌};
ghost use Rattle.std.specs.Arc.{arc_value};
ghost use Rattle.std.specs.Bool.{OnTrue, OnFalse};
ghost use Rattle.std.specs.Vec.{vec_len, vec_capacity};
ghost use Rattle.slices.specs.Spans.{or_else, between, AreApart};
ghost use Rattle.slices.specs.Pieces.{spans_of, piece_at, reaching};
ghost use Rattle.slices.specs.Stored.{stored, store_at, reaching_in, is_owned, is_open};
ghost use Rattle.slices.specs.Stored.{further_spans, SameStored, IsSound};
ghost use Rattle.slices.specs.declared.store.Store.TheVariants.{Parted};

use crate::boxes::CHUNK;
use crate::chunks::Chunks;
use crate::full::Full;
use crate::pieces::Pieces;
use crate::spans::Span;
use std::alloc::{AllocError, Global};
use std::mem::replace;
use std::sync::Arc;

/// The cells of one value. They are flat until it is cut, and in boxes from position 0 on when all
/// are put together again. The compiler compares between three cases and jumps through a table
/// between more, which takes longer for each cell, so no case stands beside more than two.
#[derive(Drop)]
pub(crate) enum Store {
    Whole(Vec<i64>),
    Boxed(Full),
    Parted(Parts),
}

/// Pieces that are written in place, or that several values read.
#[derive(Drop)]
pub(crate) enum Parts {
    Owned(Pieces),
    Shared(Arc<Pieces, Global>, First),
}

/// How the first of shared pieces has all cells, or that it isn't known to have them.
#[derive(Clone, Copy)]
pub(crate) enum First {
    Flat,
    Boxed,
    Open,
}

impl Store {
    /// Puts the cells into pieces, of which none is known to have all. It takes no memory.
    pub(crate) fn open(&mut self)
        ensures spans { stored self.new ≡ stored self.old }
        ensures owned { is_owned self.new ≡ is_owned self.old }
        ensures open { is_open self.new ≡ true }
    {
        match self {
            Store::Whole(cells) => {
                let alloc = *cells.allocator();
                let cells = replace(cells, Vec::new(alloc));
                *self = Store::Parted(Parts::Owned(Pieces::whole(alloc, cells)));
            }
            Store::Boxed(full) => {
                let alloc = *full.list.allocator();
                let list = replace(&mut full.list, Vec::new(alloc));
                let end = full.end;
                let span = Span::Cut(Chunks {
                    start: 0,
                    end,
                    list,
                });
                *self = Store::Parted(Parts::Owned(Pieces::one(alloc, span)));
            }
            Store::Parted(Parts::Owned(_)) => {}
            Store::Parted(Parts::Shared(_, first)) => *first = First::Open,
        }
    }

    /// Takes the cells out of pieces where one has all below position `end`, which are all.
    pub(crate) fn close(&mut self, end: usize)
        requires { is_open self.old ≡ true }
        ensures spans { stored self.new ≡ stored self.old }
        ensures owned { is_owned self.new ≡ is_owned self.old }
        ensures sound { IsSound end self.new }
    {
        if let Store::Parted(parts) = self
            && let Some(store) = parts.all(end)
        {
            *self = store;
        }
    }

    #[inline(always)]
    pub(crate) fn get(&self, at: usize) -> Option<i64>
        requires { IsSound (at + 1) self.now }
        ensures { result ≡ store_at self.now at }
    {
        match self {
            Store::Whole(cells) => Some(cells[at]),
            Store::Boxed(full) => Some(full.get(at)),
            Store::Parted(Parts::Owned(pieces)) => pieces.get(at),
            Store::Parted(Parts::Shared(shared, First::Flat)) => Some(shared.first.get_flat(at)),
            Store::Parted(Parts::Shared(shared, First::Boxed)) => Some(shared.first.get_cut(at)),
            Store::Parted(Parts::Shared(shared, First::Open)) => shared.get(at),
        }
    }

    /// Whether each of the first n positions is here.
    pub(crate) fn is_full(&self, n: usize) -> bool
        requires { IsSound n self.now }
        ensures yes { OnTrue result ((i : ℕ) → i < n → IsSome (store_at self.now i)) }
        ensures no { OnFalse result ((i : ℕ) × (i < n) × (store_at self.now i ≡ None)) }
    {
        match self {
            Store::Whole(_) => true,
            Store::Boxed(_) => true,
            Store::Parted(parts) => parts.is_full(n),
        }
    }

    pub(crate) fn pieces(&self) -> &Pieces
        requires { is_open self.now ≡ true }
        ensures cells { (i : ℕ)
            → (piece_at result.now i ≡ store_at self.now i)
            × (reaching result.now i ≡ reaching_in self.now i) }
        ensures len { vec_len result.now.more ≡ further_spans self.now }
    {
        match self {
            Store::Parted(Parts::Owned(pieces)) => pieces,
            Store::Parted(Parts::Shared(shared, _)) => &**shared,
            _ => unreachable!(),
        }
    }

    /// Keeps what is below position `at`, and gives what is from there on. Nothing is here from
    /// position `end` on.
    pub(crate) fn split(&mut self, at: usize, end: usize) -> Result<Pieces, AllocError>
        requires { AreApart end (stored self.old) }
        ensures kept { OnOk result
            ((i : ℕ) → store_at self.new i ≡ (if nat_lt i at then store_at self.old i else None)) }
        ensures given { IfOk result
            (λ upper. (i : ℕ) → piece_at upper i ≡ between at end i (store_at self.old i)) }
        ensures reaching { OnOk result ((i : ℕ) → reaching_in self.new i ≤ reaching_in self.old i) }
        ensures reaching_given { IfOk result (λ upper.
            (i : ℕ) → reaching upper i ≤ reaching_in self.old i) }
        ensures owned { OnOk result (is_owned self.new ≡ true) }
        ensures open { is_open self.new ≡ true }
        ensures err { OnErr result (SameStored self.old self.new) }
    {
        self.open();
        match self {
            Store::Parted(Parts::Owned(pieces)) => {
                let upper = pieces.split_off(at)?;
                Ok(upper)
            }
            Store::Parted(Parts::Shared(shared, _)) => {
                let lower = shared.copy_between(shared.alloc(), 0, at)?;
                let upper = shared.copy_between(shared.alloc(), at, end)?;
                *self = Store::Parted(Parts::Owned(lower));
                Ok(upper)
            }
            _ => unreachable!(),
        }
    }

    /// Takes out what is here from position `low` up to `high`, as what is below `mid` and the
    /// rest. Nothing is here from position `end` on.
    pub(crate) fn cut_out(
        &mut self,
        low: usize,
        mid: usize,
        high: usize,
        end: usize,
    ) -> Result<(Pieces, Pieces), AllocError>
        requires order { (low ≤ mid) × (mid ≤ high) }
        requires apart { AreApart end (stored self.old) }
        ensures kept { OnOk result
            ((i : ℕ)
            → store_at self.new i
            ≡ (if nat_le low i && nat_lt i high then None else store_at self.old i)) }
        ensures lower { IfOk result
            (λ parts. (i : ℕ) → piece_at parts.0 i ≡ between low mid i (store_at self.old i)) }
        ensures upper { IfOk result
            (λ parts. (i : ℕ) → piece_at parts.1 i ≡ between mid high i (store_at self.old i)) }
        ensures reaching { OnOk result ((i : ℕ) → reaching_in self.new i ≤ reaching_in self.old i) }
        ensures reaching_lower { IfOk result (λ parts.
            (i : ℕ) → reaching parts.0 i ≤ reaching_in self.old i) }
        ensures reaching_upper { IfOk result (λ parts.
            (i : ℕ) → reaching parts.1 i ≤ reaching_in self.old i) }
        ensures owned { OnOk result (is_owned self.new ≡ true) }
        ensures open { is_open self.new ≡ true }
        ensures err { OnErr result (SameStored self.old self.new) }
    {
        self.open();
        match self {
            Store::Parted(Parts::Owned(pieces)) => pieces.cut_out(low, mid, high),
            Store::Parted(Parts::Shared(shared, _)) => {
                let mut pieces = shared.copy(shared.alloc(), end)?;
                let parts = pieces.cut_out(low, mid, high)?;
                *self = Store::Parted(Parts::Owned(pieces));
                Ok(parts)
            }
            _ => unreachable!(),
        }
    }

    /// Whether the position is here; it is set then. Nothing comes and nothing is done where others
    /// read the cells too.
    #[inline(always)]
    pub(crate) fn put(&mut self, at: usize, value: i64) -> Option<bool>
        requires { IsSound (at + 1) self.old }
        ensures found { IfSome result (λ done. done ≡ is_some (store_at self.old at)) }
        ensures cells { IfSome result
            (λ done. (i : ℕ)
            → store_at self.new i
            ≡ (if done && i == at then Some value else store_at self.old i)) }
        ensures reaching { (i : ℕ) → reaching_in self.new i ≡ reaching_in self.old i }
        ensures owned { is_owned self.new ≡ is_owned self.old }
        ensures sound { (n : ℕ) → IsSound n self.old → IsSound n self.new }
        ensures tells { is_owned self.old ≡ is_some result }
        ensures left { result ≡ None → self.new ≡ self.old }
    {
        match self {
            Store::Whole(cells) => {
                cells[at] = value;
                Some(true)
            }
            Store::Boxed(full) => {
                full.put(at, value);
                Some(true)
            }
            Store::Parted(Parts::Owned(pieces)) => Some(pieces.put(at, value)),
            Store::Parted(Parts::Shared(_, _)) => None,
        }
    }

    /// Whether the position is here; it is set then, in a copy, as others read the cells too.
    pub(crate) fn put_shared(
        &mut self,
        at: usize,
        value: i64,
        end: usize,
    ) -> Result<bool, AllocError>
        requires shared { is_owned self.old ≡ false }
        requires apart { AreApart end (stored self.old) }
        ensures found { IfOk result (λ done. done ≡ is_some (store_at self.old at)) }
        ensures cells { IfOk result
            (λ done. (i : ℕ)
            → store_at self.new i
            ≡ (if done && i == at then Some value else store_at self.old i)) }
        ensures reaching { (i : ℕ) → reaching_in self.new i ≤ reaching_in self.old i }
        ensures owned { IfOk result (λ done. is_owned self.new ≡ done) }
        ensures sound { IsSound end self.new }
        ensures err { OnErr result (SameStored self.old self.new) }
        ensures no_memory { OnErr result (IsSome (store_at self.old at)) }
    {
        self.open();
        match self {
            Store::Parted(Parts::Shared(shared, _)) => {
                if shared.get(at).is_none() {
                    return Ok(false);
                }
                let mut pieces = shared.copy(shared.alloc(), end)?;
                pieces.put(at, value);
                *self = Store::Parted(Parts::Owned(pieces));
                self.close(end);
                Ok(true)
            }
            _ => unreachable!(),
        }
    }

    /// Takes the other's cells in, or hands it back where memory is wanting. All that takes memory
    /// comes before the first change.
    pub(crate) fn take_in(&mut self, other: Store, end: usize) -> Result<(), Store>
        requires open { (is_open self.old ≡ true) × (is_open other ≡ true) }
        requires apart { AreApart end (stored self.old) }
        requires others_apart { AreApart end (stored other) }
        requires none_common { (i : ℕ) → reaching_in self.old i + reaching_in other i ≤ 1 }
        ensures cells { OnOk result
            ((i : ℕ) → store_at self.new i ≡ or_else (store_at self.old i) (store_at other i)) }
        ensures reaching { OnOk result
            ((i : ℕ) → reaching_in self.new i ≤ reaching_in self.old i + reaching_in other i) }
        ensures owned { OnOk result (is_owned self.new ≡ true) }
        ensures open { is_open self.new ≡ true }
        ensures err { OnErr result (SameStored self.old self.new) }
        ensures handed_back { IfErr result (λ store. store ≡ other) }
    {
        match self {
            Store::Parted(Parts::Owned(pieces)) => join(pieces, other, end),
            Store::Parted(Parts::Shared(shared, _)) => {
                let mut pieces = match shared.copy(shared.alloc(), end) {
                    Ok(pieces) => pieces,
                    Err(_) => return Err(other),
                };
                join(&mut pieces, other, end)?;
                *self = Store::Parted(Parts::Owned(pieces));
                Ok(())
            }
            _ => unreachable!(),
        }
    }

    /// Makes the cells its own, by a copy where others read them too.
    pub(crate) fn own(&mut self, end: usize) -> Result<(), AllocError>
        requires { AreApart end (stored self.old) }
        ensures cells { (i : ℕ) → store_at self.new i ≡ store_at self.old i }
        ensures reaching { (i : ℕ) → reaching_in self.new i ≤ reaching_in self.old i }
        ensures owned { OnOk result (is_owned self.new ≡ true) }
        ensures sound { IsSound end self.old → IsSound end self.new }
        ensures err { OnErr result (self.new ≡ self.old) }
        ensures no_memory { OnErr result (is_owned self.old ≡ false) }
    {
        match self {
            Store::Whole(_) => Ok(()),
            Store::Boxed(_) => Ok(()),
            Store::Parted(Parts::Owned(_)) => Ok(()),
            Store::Parted(Parts::Shared(shared, _)) => {
                *self = copy_of(shared, end)?;
                Ok(())
            }
        }
    }

    /// A second value that reads the same cells. Where memory is wanting the cells stay.
    pub(crate) fn share(&mut self, end: usize) -> Result<Store, AllocError>
        ensures cells { (i : ℕ) → store_at self.new i ≡ store_at self.old i }
        ensures reaching { (i : ℕ) → reaching_in self.new i ≡ reaching_in self.old i }
        ensures second { IfOk result
            (λ store. (i : ℕ)
            → (store_at store i ≡ store_at self.old i)
            × (reaching_in store i ≡ reaching_in self.old i)) }
        ensures shared { OnOk result (is_owned self.new ≡ false) }
        ensures second_shared { IfOk result (λ store. is_owned store ≡ false) }
        ensures sound { IsSound end self.old → IsSound end self.new }
        ensures second_sound { IfOk result (λ store. IsSound end self.old → IsSound end store) }
    {
        if let Store::Parted(parts) = self
            && let Parts::Shared(shared, first) = parts
        {
            let second = Arc::try_clone(shared)?;
            return Ok(Store::Parted(Parts::Shared(second, *first)));
        }
        self.share_owned(end)
    }

    /// `share` where no other reads the cells yet.
    fn share_owned(&mut self, end: usize) -> Result<Store, AllocError>
        ensures cells { (i : ℕ) → store_at self.new i ≡ store_at self.old i }
        ensures reaching { (i : ℕ) → reaching_in self.new i ≡ reaching_in self.old i }
        ensures second { IfOk result
            (λ store. (i : ℕ)
            → (store_at store i ≡ store_at self.old i)
            × (reaching_in store i ≡ reaching_in self.old i)) }
        ensures shared { OnOk result (is_owned self.new ≡ false) }
        ensures second_shared { IfOk result (λ store. is_owned store ≡ false) }
        ensures sound { IsSound end self.new }
        ensures second_sound { IfOk result (λ store. IsSound end store) }
    {
        self.open();
        let alloc = self.pieces().alloc();
        match replace(self, Store::Parted(Parts::Owned(Pieces::none(alloc)))) {
            Store::Parted(Parts::Owned(pieces)) => match handles_on(alloc, pieces, end) {
                Ok((first, second)) => {
                    *self = first;
                    Ok(second)
                }
                Err(store) => {
                    *self = store;
                    Err(AllocError)
                }
            },
            other => {
                *self = other;
                Err(AllocError)
            }
        }
    }

    /// The pieces, taken out of it, or copied where others read them too. Where memory is wanting
    /// it is handed back.
    fn into_owned(self, end: usize) -> Result<Pieces, Store>
        requires open { is_open self ≡ true }
        requires apart { AreApart end (stored self) }
        ensures cells { IfOk result (λ pieces. (i : ℕ) → piece_at pieces i ≡ store_at self i) }
        ensures reaching { IfOk result (λ pieces.
            (i : ℕ) → reaching pieces i ≤ reaching_in self i) }
        ensures len { IfOk result (λ pieces. vec_len pieces.more ≤ further_spans self) }
        ensures handed_back { IfErr result (λ store. store ≡ self) }
    {
        match self {
            Store::Parted(Parts::Owned(pieces)) => Ok(pieces),
            Store::Parted(Parts::Shared(shared, first)) => {
                match shared.copy(shared.alloc(), end) {
                    Ok(pieces) => Ok(pieces),
                    Err(_) => Err(Store::Parted(Parts::Shared(shared, first))),
                }
            }
            _ => unreachable!(),
        }
    }
}

impl Parts {
    fn is_full(&self, n: usize) -> bool
        requires { IsSound n (Parted self.now) }
        ensures yes { OnTrue result ((i : ℕ) → i < n → IsSome (store_at (Parted self.now) i)) }
        ensures no { OnFalse result
            ((i : ℕ) × (i < n) × (store_at (Parted self.now) i ≡ None)) }
    {
        match self {
            Parts::Owned(pieces) => pieces.is_full(n),
            Parts::Shared(shared, first) => match first {
                First::Flat => true,
                First::Boxed => true,
                First::Open => shared.is_full(n),
            },
        }
    }

    /// The cells of a table of `end` cells, taken out where they are owned and one span has all.
    fn all(&mut self, end: usize) -> Option<Store>
        ensures spans { IfSome result (λ store. stored store ≡ stored (Parted self.old)) }
        ensures owned { IfSome result
            (λ store. (is_owned store ≡ true) × (is_owned (Parted self.old) ≡ true)) }
        ensures sound { IfSome result (λ store. IsSound end store) }
        ensures left { IfNone result (self.new ≡ self.old) }
    {
        match self {
            Parts::Owned(pieces) if pieces.more.len() == 0 => all_of(&mut pieces.first, end),
            _ => None,
        }
    }
}

/// Two handles on the pieces. Where memory is wanting the pieces are handed back, owned unless a
/// handle is left on them.
fn handles_on(alloc: Global, pieces: Pieces, end: usize) -> Result<(Store, Store), Store>
    ensures cells { IfOk result
        (λ both. (stored both.0 ≡ spans_of pieces) × (stored both.1 ≡ spans_of pieces)) }
    ensures shared { IfOk result (λ both. (is_owned both.0 ≡ false) × (is_owned both.1 ≡ false)) }
    ensures sound { IfOk result (λ both. IsSound end both.0 × IsSound end both.1) }
    ensures handed_back { IfErr result (λ store.
        (stored store ≡ spans_of pieces) × IsSound end store) }
{
    let shared = match Arc::new(alloc, pieces) {
        Ok(shared) => shared,
        Err(failed) => return Err(Store::Parted(Parts::Owned(failed.value))),
    };
    match Arc::try_clone(&shared) {
        Ok(second) => Ok((reader(shared, end), reader(second, end))),
        Err(_) => Err(unshared(shared, end)),
    }
}

/// The pieces, owned where this is their only handle.
fn unshared(shared: Arc<Pieces, Global>, end: usize) -> Store
    ensures spans { stored result ≡ spans_of (arc_value shared) }
    ensures sound { IsSound end result }
{
    match Arc::try_unwrap(shared) {
        Ok(pieces) => Store::Parted(Parts::Owned(pieces)),
        Err(shared) => reader(shared, end),
    }
}

/// What reads the pieces of a table of `end` cells.
fn reader(shared: Arc<Pieces, Global>, end: usize) -> Store
    ensures spans { stored result ≡ spans_of (arc_value shared) }
    ensures owned { is_owned result ≡ false }
    ensures sound { IsSound end result }
{
    let first = if !shared.first.has_all(end) {
        First::Open
    } else if shared.first.is_flat() {
        First::Flat
    } else {
        First::Boxed
    };
    Store::Parted(Parts::Shared(shared, first))
}

/// A copy of the pieces of a table of `end` cells, owned.
fn copy_of(pieces: &Pieces, end: usize) -> Result<Store, AllocError>
    requires { AreApart end (spans_of pieces.now) }
    ensures cells { IfOk result (λ store. (i : ℕ) → store_at store i ≡ piece_at pieces.now i) }
    ensures reaching { IfOk result (λ store.
        (i : ℕ) → reaching_in store i ≤ reaching pieces.now i) }
    ensures owned { IfOk result (λ store. is_owned store ≡ true) }
    ensures sound { IfOk result (λ store. IsSound end store) }
{
    let mut store = Store::Parted(Parts::Owned(pieces.copy(pieces.alloc(), end)?));
    store.close(end);
    Ok(store)
}

fn join(pieces: &mut Pieces, other: Store, end: usize) -> Result<(), Store>
    requires others_open { is_open other ≡ true }
    requires others_apart { AreApart end (stored other) }
    requires none_common { (i : ℕ) → reaching pieces.old i + reaching_in other i ≤ 1 }
    ensures cells { OnOk result
        ((i : ℕ) → piece_at pieces.new i ≡ or_else (piece_at pieces.old i) (store_at other i)) }
    ensures reaching { OnOk result
        ((i : ℕ) → reaching pieces.new i ≤ reaching pieces.old i + reaching_in other i) }
    ensures err { OnErr result
        ((i : ℕ)
        → (piece_at pieces.new i ≡ piece_at pieces.old i)
        × (reaching pieces.new i ≡ reaching pieces.old i)) }
    ensures handed_back { IfErr result (λ store. store ≡ other) }
{
    if pieces.make_room(other.pieces()).is_err() {
        return Err(other);
    }
    let theirs = other.into_owned(end)?;
    pieces.take_in(theirs);
    Ok(())
}

/// All cells of a table of `end` cells, taken out of a span that has them.
fn all_of(span: &mut Span, end: usize) -> Option<Store>
    ensures spans { IfSome result (λ store. stored store ≡ span.old ∷ []) }
    ensures owned { IfSome result (λ store. is_owned store ≡ true) }
    ensures sound { IfSome result (λ store. IsSound end store) }
    ensures left { IfNone result (span.new ≡ span.old) }
{
    let alloc = span.alloc();
    match span {
        Span::Flat(flat) => {
            if flat.start > 0 || flat.cells.len() < end {
                return None;
            }
            let cells = replace(&mut flat.cells, Vec::new(alloc));
            Some(Store::Whole(cells))
        }
        Span::Cut(cut) => {
            if cut.start > 0 || cut.end < end || end == 0 || (end - 1) / CHUNK >= cut.list.len() {
                return None;
            }
            let list = replace(&mut cut.list, Vec::new(alloc));
            let end = cut.end;
            Some(Store::Boxed(Full { end, list }))
        }
    }
}
