// The spans that one value holds: mostly one, kept beside the rest.

ghost use Rattle.std.specs.Prelude.{◌≡◌, ℕ, ◌+◌, ◌*◌, ◌<◌, ◌≤◌, ◌==◌, ◌&&◌, if◌then◌else◌, nat_le};
ghost use Rattle.std.specs.Prelude.{nat_lt, Some, None, IsSome, IfOk, OnOk, OnErr, MatchOption};
ghost use Rattle.std.specs.Prelude.{is_some, is_ok, length, [], ◌∷◌};
ghost use Rattle.std.specs.Bool.{OnTrue, OnFalse};
ghost use Rattle.std.specs.Vec.{vec_len, vec_capacity};
ghost use Rattle.slices.specs.Spans.{span_at, spans_at, holders, count, or_else, between, AreApart};
ghost use Rattle.slices.specs.Pieces.{spans_of, piece_at, reaching};
ghost use Rattle.slices.specs.Spans.{flat_span};

use crate::spans::Span;
use std::alloc::{AllocError, Global};

/// Cells in spans that have no position in common. A whole table is one span, `first`.
#[derive(Drop)]
pub(crate) struct Pieces {
    pub(crate) first: Span,
    pub(crate) more: Vec<Span>,
}

impl Pieces {
    /// All cells of a table, row by row.
    pub(crate) fn whole(alloc: Global, cells: Vec<i64>) -> Pieces
        ensures { spans_of result ≡ flat_span cells ∷ [] }
    {
        Pieces::one(alloc, Span::whole(cells))
    }

    pub(crate) fn one(alloc: Global, first: Span) -> Pieces
        ensures { spans_of result ≡ first ∷ [] }
    {
        Pieces {
            first,
            more: Vec::new(alloc),
        }
    }

    pub(crate) fn none(alloc: Global) -> Pieces
        ensures cells { (i : ℕ) → piece_at result i ≡ None }
        ensures reaching { (i : ℕ) → reaching result i ≡ 0 }
    {
        Pieces {
            first: Span::none(alloc),
            more: Vec::new(alloc),
        }
    }

    #[inline(always)]
    pub(crate) fn get(&self, at: usize) -> Option<i64>
        ensures { result ≡ piece_at self.now at }
    {
        match self.first.get(at) {
            Some(value) => Some(value),
            None => get_of(&self.more, at),
        }
    }

    /// The allocator that its buffers were made with.
    pub(crate) fn alloc(&self) -> Global {
        self.first.alloc()
    }

    /// Whether the position is here; it is set then.
    #[inline(always)]
    pub(crate) fn put(&mut self, at: usize, value: i64) -> bool
        ensures found { result ≡ is_some (piece_at self.old at) }
        ensures cells { (i : ℕ)
            → piece_at self.new i
            ≡ (if result && i == at then Some value else piece_at self.old i) }
        ensures reaching { (i : ℕ) → reaching self.new i ≡ reaching self.old i }
    {
        if self.first.put(at, value) {
            return true;
        }
        put_in(&mut self.more, at, value)
    }

    /// A copy of what is here from position `low` up to `high`.
    pub(crate) fn copy_between(
        &self,
        alloc: Global,
        low: usize,
        high: usize,
    ) -> Result<Pieces, AllocError>
        ensures cells { IfOk result
            (λ part. (i : ℕ) → piece_at part i ≡ between low high i (piece_at self.now i)) }
        ensures reaching { IfOk result (λ part. (i : ℕ) → reaching part i ≤ reaching self.now i) }
        ensures len { IfOk result (λ part. vec_len part.more ≤ vec_len self.now.more) }
    {
        let first = self.first.copy_between(alloc, low, high)?;
        let more = copies_between(alloc, &self.more, low, high)?;
        Ok(Pieces { first, more })
    }

    /// A copy of all that is here, which is below position `end`.
    pub(crate) fn copy(&self, alloc: Global, end: usize) -> Result<Pieces, AllocError>
        requires { AreApart end (spans_of self.now) }
        ensures cells { IfOk result (λ part. (i : ℕ) → piece_at part i ≡ piece_at self.now i) }
        ensures reaching { IfOk result (λ part. (i : ℕ) → reaching part i ≤ reaching self.now i) }
        ensures len { IfOk result (λ part. vec_len part.more ≤ vec_len self.now.more) }
    {
        let part = self.copy_between(alloc, 0, end)?;
        Ok(part)
    }

    /// Keeps what is below position `at`, and gives what is from there on.
    pub(crate) fn split_off(&mut self, at: usize) -> Result<Pieces, AllocError>
        requires { (i : ℕ) → reaching self.old i ≤ 1 }
        ensures kept { OnOk result
            ((i : ℕ) → piece_at self.new i ≡ (if nat_lt i at then piece_at self.old i else None)) }
        ensures given { IfOk result
            (λ upper. (i : ℕ)
            → piece_at upper i ≡ (if nat_lt i at then None else piece_at self.old i)) }
        ensures reaching { IfOk result
            (λ upper. (i : ℕ) → reaching self.new i + reaching upper i ≡ reaching self.old i) }
        ensures err { OnErr result
            ((i : ℕ)
            → (piece_at self.new i ≡ piece_at self.old i)
            × (reaching self.new i ≡ reaching self.old i)) }
        ensures len { IfOk result
            (λ upper. (vec_len self.new.more ≡ vec_len self.old.more)
            × (vec_len upper.more ≤ vec_len self.old.more)) }
        ensures err_len { OnErr result (vec_len self.new.more
            ≤ vec_len self.old.more + vec_len self.old.more) }
        ensures capacity { vec_capacity self.old.more ≤ vec_capacity self.new.more }
    {
        let mut more = Vec::with_capacity(self.alloc(), self.more.len())?;
        self.more.reserve(self.more.len())?;
        let first = self.first.split_off(at)?;
        match split_each(&mut self.more, at, &mut more) {
            Ok(()) => Ok(Pieces { first, more }),
            Err(fault) => {
                self.take_in(Pieces { first, more });
                Err(fault)
            }
        }
    }

    /// Takes out what is here from position `low` up to `high`, as what is below `mid` and the
    /// rest.
    pub(crate) fn cut_out(
        &mut self,
        low: usize,
        mid: usize,
        high: usize,
    ) -> Result<(Pieces, Pieces), AllocError>
        requires order { (low ≤ mid) × (mid ≤ high) }
        requires apart { (i : ℕ) → reaching self.old i ≤ 1 }
        ensures cells { OnOk result
            ((i : ℕ)
            → piece_at self.new i
            ≡ (if nat_le low i && nat_lt i high then None else piece_at self.old i)) }
        ensures lower { IfOk result
            (λ parts. (i : ℕ) → piece_at parts.0 i ≡ between low mid i (piece_at self.old i)) }
        ensures upper { IfOk result
            (λ parts. (i : ℕ) → piece_at parts.1 i ≡ between mid high i (piece_at self.old i)) }
        ensures reaching { OnOk result ((i : ℕ) → reaching self.new i ≤ reaching self.old i) }
        ensures reaching_lower { IfOk result (λ parts.
            (i : ℕ) → reaching parts.0 i ≤ reaching self.old i) }
        ensures reaching_upper { IfOk result (λ parts.
            (i : ℕ) → reaching parts.1 i ≤ reaching self.old i) }
        ensures err { OnErr result
            ((i : ℕ)
            → (piece_at self.new i ≡ piece_at self.old i)
            × (reaching self.new i ≡ reaching self.old i)) }
    {
        self.make_room_for_cuts()?;
        let tail = self.split_off(high)?;
        let upper = match self.split_off(mid) {
            Ok(upper) => upper,
            Err(fault) => {
                self.take_in(tail);
                return Err(fault);
            }
        };
        match self.split_off(low) {
            Ok(lower) => {
                self.take_in(tail);
                Ok((lower, upper))
            }
            Err(fault) => {
                self.take_in(upper);
                self.take_in(tail);
                Err(fault)
            }
        }
    }

    /// Makes room for the spans that three cuts hand out, so that they are taken in again where
    /// memory is wanting for a later one.
    fn make_room_for_cuts(&mut self) -> Result<(), AllocError>
        ensures items { self.new.more.items ≡ self.old.more.items }
        ensures first { self.new.first ≡ self.old.first }
        ensures len { vec_len self.new.more ≡ vec_len self.old.more }
        ensures room { OnOk result (vec_len self.old.more * 4 + 2 ≤ vec_capacity self.new.more) }
    {
        let len = self.more.len();
        if len > usize::MAX / 4 {
            return Err(AllocError);
        }
        self.more.reserve(3 * len + 2)
    }

    /// How many cells from a position on are here, one after another.
    fn reach(&self, at: usize) -> usize
        ensures here { (i : ℕ) → at ≤ i → i < at + result → IsSome (piece_at self.now i) }
        ensures none { result ≡ 0 → piece_at self.now at ≡ None }
    {
        let reach = self.first.reach(at);
        if reach > 0 {
            return reach;
        }
        reach_of(&self.more, at)
    }

    /// Whether each of the first n positions is here.
    pub(crate) fn is_full(&self, n: usize) -> bool
        ensures yes { OnTrue result ((i : ℕ) → i < n → IsSome (piece_at self.now i)) }
        ensures no { OnFalse result ((i : ℕ) × (i < n) × (piece_at self.now i ≡ None)) }
    {
        let mut at = 0;
        while at < n {
            let reach = self.reach(at);
            if reach == 0 {
                return false;
            }
            if reach >= n - at {
                return true;
            }
            at += reach;
        }
        true
    }

    /// Whether a position lies in both.
    pub(crate) fn overlaps(&self, other: &Pieces) -> bool
        ensures yes { OnTrue result ((i : ℕ) × IsSome (piece_at self.now i)
            × IsSome (piece_at other.now i)) }
        ensures no { OnFalse result ((i : ℕ) → IsSome (piece_at other.now i) →
            piece_at self.now i ≡ None) }
    {
        if self.meets(&other.first) {
            return true;
        }
        for span in &other.more {
            if self.meets(span) {
                return true;
            }
        }
        false
    }

    fn meets(&self, span: &Span) -> bool
        ensures yes { OnTrue result ((i : ℕ) × IsSome (piece_at self.now i)
            × IsSome (span_at span.now i)) }
        ensures no { OnFalse result ((i : ℕ) → IsSome (span_at span.now i) →
            piece_at self.now i ≡ None) }
    {
        if self.first.meets(span) {
            return true;
        }
        meets_one_of(&self.more, span)
    }

    /// Makes room for the other's spans, so that `take_in` needs no memory.
    pub(crate) fn make_room(&mut self, other: &Pieces) -> Result<(), AllocError>
        ensures cells { (i : ℕ) → piece_at self.new i ≡ piece_at self.old i }
        ensures reaching { (i : ℕ) → reaching self.new i ≡ reaching self.old i }
        ensures room { OnOk result
            (vec_len self.new.more + (vec_len other.now.more + 1) ≤ vec_capacity self.new.more) }
    {
        self.more.reserve(other.more.len() + 1)
    }

    /// Takes the other's cells in. There is room for its spans.
    pub(crate) fn take_in(&mut self, other: Pieces)
        requires { vec_len self.old.more + (vec_len other.more + 1) ≤ vec_capacity self.old.more }
        ensures cells { (i : ℕ)
            → reaching self.old i + reaching other i ≤ 1
            → piece_at self.new i ≡ or_else (piece_at self.old i) (piece_at other i) }
        ensures reaching { (i : ℕ) → reaching self.new i ≡ reaching self.old i + reaching other i }
        ensures len { vec_len self.new.more ≤ vec_len self.old.more + (vec_len other.more + 1) }
        ensures capacity { vec_capacity self.new.more ≡ vec_capacity self.old.more }
    {
        let Pieces { first, mut more } = other;
        self.add(first);
        while let Some(span) = more.pop() {
            self.add(span);
        }
    }

    /// Takes one span in. There is room for it.
    fn add(&mut self, span: Span)
        requires { vec_len self.old.more + 1 ≤ vec_capacity self.old.more }
        ensures cells { (i : ℕ)
            → reaching self.old i + count (span_at span i) ≤ 1
            → piece_at self.new i ≡ or_else (piece_at self.old i) (span_at span i) }
        ensures reaching { (i : ℕ) →
            reaching self.new i ≡ reaching self.old i + count (span_at span i) }
        ensures len { vec_len self.new.more ≤ vec_len self.old.more + 1 }
        ensures capacity { vec_capacity self.new.more ≡ vec_capacity self.old.more }
    {
        let mut span = span;
        if self.first.join(&mut span) {
            self.join_more();
        } else {
            self.more.push_reserved(span);
        }
    }

    /// Joins to the first span those that follow it or stand before it.
    fn join_more(&mut self)
        ensures cells { (i : ℕ) → reaching self.old i ≤ 1 →
            piece_at self.new i ≡ piece_at self.old i }
        ensures reaching { (i : ℕ) → reaching self.new i ≡ reaching self.old i }
        ensures len { vec_len self.new.more ≤ vec_len self.old.more }
        ensures capacity { vec_capacity self.new.more ≡ vec_capacity self.old.more }
    {
        let mut k = 0;
        while k < self.more.len() {
            if self.first.join(&mut self.more[k]) {
                self.more.remove(k);
            } else {
                k += 1;
            }
        }
    }
}

fn reach_of(spans: &[Span], at: usize) -> usize
    ensures here { (i : ℕ) → at ≤ i → i < at + result → IsSome (spans_at spans.now i) }
    ensures none { result ≡ 0 → spans_at spans.now at ≡ None }
{
    for span in spans {
        let reach = span.reach(at);
        if reach > 0 {
            return reach;
        }
    }
    0
}

fn meets_one_of(spans: &[Span], other: &Span) -> bool
    ensures yes { OnTrue result ((i : ℕ) × IsSome (spans_at spans.now i)
        × IsSome (span_at other.now i)) }
    ensures no { OnFalse result ((i : ℕ) → IsSome (span_at other.now i) →
        spans_at spans.now i ≡ None) }
{
    for span in spans {
        if span.meets(other) {
            return true;
        }
    }
    false
}

#[inline(never)]
fn get_of(spans: &[Span], at: usize) -> Option<i64>
    ensures { result ≡ spans_at spans.now at }
{
    for span in spans {
        if let Some(value) = span.get(at) {
            return Some(value);
        }
    }
    None
}

#[inline(never)]
fn put_in(spans: &mut [Span], at: usize, value: i64) -> bool
    ensures found { result ≡ is_some (spans_at spans.old at) }
    ensures cells { (i : ℕ)
        → spans_at spans.new i
        ≡ (if result && i == at then Some value else spans_at spans.old i) }
    ensures reaching { (i : ℕ) → holders spans.new i ≡ holders spans.old i }
{
    for span in spans.iter_mut() {
        if span.put(at, value) {
            return true;
        }
    }
    false
}

/// Keeps what is below position `at`, and puts what is from there on into `parts`.
fn split_each(spans: &mut [Span], at: usize, parts: &mut Vec<Span>) -> Result<(), AllocError>
    requires none { parts.old.items ≡ [] }
    requires room { length spans.old ≤ vec_capacity parts.old }
    ensures kept { OnOk result
        ((i : ℕ) → spans_at spans.new i ≡ (if nat_lt i at then spans_at spans.old i else None)) }
    ensures given { OnOk result
        ((i : ℕ)
        → spans_at parts.new.items i ≡ (if nat_lt i at then None else spans_at spans.old i)) }
    ensures reaching { (i : ℕ) →
        holders spans.new i + holders parts.new.items i ≡ holders spans.old i }
    ensures err { OnErr result
        ((i : ℕ)
        → holders spans.old i ≤ 1
        → or_else (spans_at spans.new i) (spans_at parts.new.items i) ≡ spans_at spans.old i) }
    ensures len { vec_len parts.new ≤ length spans.old }
    ensures err_len { OnErr result (vec_len parts.new + 1 ≤ length spans.old) }
{
    for span in spans.iter_mut() {
        let part = span.split_off(at)?;
        push_reserved(parts, part);
    }
    Ok(())
}

fn push_reserved(spans: &mut Vec<Span>, span: Span)
    requires { vec_len spans.old < vec_capacity spans.old }
    ensures cells { (i : ℕ)
        → spans_at spans.new.items i ≡ or_else (spans_at spans.old.items i) (span_at span i) }
    ensures reaching { (i : ℕ) →
        holders spans.new.items i ≡ holders spans.old.items i + count (span_at span i) }
    ensures len { vec_len spans.new ≤ vec_len spans.old + 1 }
    ensures capacity { vec_capacity spans.new ≡ vec_capacity spans.old }
{
    if !span.is_empty() {
        spans.push_reserved(span);
    }
}

fn copies_between(
    alloc: Global,
    spans: &[Span],
    low: usize,
    high: usize,
) -> Result<Vec<Span>, AllocError>
    ensures cells { IfOk result
        (λ parts. (i : ℕ) → spans_at parts.items i ≡ between low high i (spans_at spans.now i)) }
    ensures reaching { IfOk result (λ parts.
        (i : ℕ) → holders parts.items i ≤ holders spans.now i) }
    ensures len { IfOk result (λ parts. vec_len parts ≤ length spans.now) }
{
    let mut parts = Vec::new(alloc);
    for span in spans {
        let part = span.copy_between(alloc, low, high)?;
        push_held(&mut parts, part)?;
    }
    Ok(parts)
}

fn push_held(spans: &mut Vec<Span>, span: Span) -> Result<(), AllocError>
    ensures cells { OnOk result
        ((i : ℕ)
        → spans_at spans.new.items i ≡ or_else (spans_at spans.old.items i) (span_at span i)) }
    ensures reaching { OnOk result
        ((i : ℕ) → holders spans.new.items i ≡ holders spans.old.items i + count (span_at span i)) }
    ensures len { vec_len spans.new ≤ vec_len spans.old + 1 }
{
    if span.is_empty() {
        return Ok(());
    }
    spans.push(span)?;
    Ok(())
}
