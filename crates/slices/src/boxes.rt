// Boxes of 256 cells, and lists of them.

ghost use Rattle.std.specs.Prelude.{◌≡◌, ℕ, ◌+◌, ◌-◌, ◌/◌, ◌%◌, ◌<◌, ◌≤◌, ◌==◌, ◌⊎◌, if◌then◌else◌};
ghost use Rattle.std.specs.Prelude.{Some, IsSome, IfOk, OnSome, MatchOption, length, ◌++◌};
ghost use Rattle.std.specs.Prelude.{option_to_list};
ghost use Rattle.std.specs.Bool.{OnTrue, OnFalse};
ghost use Rattle.std.specs.Vec.{vec_len, vec_capacity};
ghost use Rattle.slices.specs.Spans.{number, held_in, in_list};

use std::alloc::{AllocError, Global};

/// How many cells a box has.
pub(crate) const CHUNK: usize = 256;

/// A box of cells. A cell stands at the remainder of its position by the number of cells.
pub(crate) type Chunk = Box<[i64; CHUNK]>;

/// The cell at a position that the box has.
#[inline(always)]
pub(crate) fn read(chunk: &[i64; CHUNK], at: usize) -> i64
    ensures { result ≡ number chunk.now (at % 256) }
{
    chunk[at % CHUNK]
}

/// Sets the cell at a position that the box has.
#[inline(always)]
pub(crate) fn write(chunk: &mut [i64; CHUNK], at: usize, value: i64)
    ensures { (j : ℕ)
        → number chunk.new j ≡ (if j == at % 256 then value else number chunk.old j) }
{
    chunk[at % CHUNK] = value;
}

/// A box with these cells from index `skip` on.
pub(crate) fn chunk_of(alloc: Global, skip: usize, part: &[i64]) -> Result<Chunk, AllocError>
    requires { skip + length part.now ≤ 256 }
    ensures { IfOk result
        (λ chunk.
        (j : ℕ) → j < length part.now → number chunk.value (skip + j) ≡ number part.now j) }
{
    if let Ok(cells) = <[i64; CHUNK]>::try_from(part) {
        let chunk = boxed(alloc, cells)?;
        return Ok(chunk);
    }
    let mut cells = [0; CHUNK];
    cells[skip..skip + part.len()].copy_from_slice(part);
    boxed(alloc, cells)
}

fn boxed(alloc: Global, cells: [i64; CHUNK]) -> Result<Chunk, AllocError>
    ensures { IfOk result (λ chunk. chunk.value ≡ cells) }
{
    match Box::new(alloc, cells) {
        Ok(chunk) => Ok(chunk),
        Err(_) => Err(AllocError),
    }
}

/// A copy of each box.
pub(crate) fn copies_of(alloc: Global, list: &[Chunk]) -> Result<Vec<Chunk>, AllocError>
    ensures { IfOk result (λ copies. (k j : ℕ) → held_in copies.items k j ≡ held_in list.now k j) }
{
    let mut copies = Vec::with_capacity(alloc, list.len())?;
    for chunk in list {
        copies.push(boxed(alloc, **chunk)?)?;
    }
    Ok(copies)
}

/// A copy of the box that is cut where position `at` is the upper part's first. There is none to
/// be copied where the cut goes between two boxes, or past the last.
pub(crate) fn lower_copy(
    alloc: Global,
    list: &[Chunk],
    index: usize,
    at: usize,
) -> Result<Option<Chunk>, AllocError>
    ensures { IfOk result
        (λ lower. MatchOption lower ((at % 256 ≡ 0) ⊎ (length list.now ≤ index))
        (λ chunk. (index < length list.now)
        × ((j : ℕ) → held_in list.now index j ≡ Some (number chunk.value j)))) }
{
    if at % CHUNK == 0 || index >= list.len() {
        return Ok(None);
    }
    Ok(Some(boxed(alloc, *list[index])?))
}

/// Puts a box behind the others, which there is room for.
pub(crate) fn put_behind(list: &mut Vec<Chunk>, last: Option<Chunk>)
    requires { OnSome last (vec_len list.old < vec_capacity list.old) }
    ensures { list.new.items ≡ list.old.items ++ option_to_list last }
{
    if let Some(chunk) = last {
        list.push_reserved(chunk);
    }
}

/// Puts the upper boxes, which go on at position `end`, behind the lower ones, which begin at
/// `start` and end there. Where memory is wanting the cells stay where they are.
pub(crate) fn joined(
    lower: &mut Vec<Chunk>,
    upper: &mut Vec<Chunk>,
    start: usize,
    end: usize,
) -> bool
    requires order { start < end }
    requires len { vec_len lower.old ≡ (end - 1) / 256 - start / 256 + 1 }
    ensures below { OnTrue result
        ((i : ℕ)
        → start ≤ i
        → i < end
        → in_list start lower.new.items i ≡ in_list start lower.old.items i) }
    ensures above { OnTrue result
        ((i : ℕ) → end ≤ i → in_list start lower.new.items i ≡ in_list end upper.old.items i) }
    ensures apart { OnFalse result (lower.new.items ≡ lower.old.items) }
    ensures upper_apart { OnFalse result
        ((i : ℕ) → end ≤ i → in_list end upper.new.items i ≡ in_list end upper.old.items i) }
{
    if end % CHUNK == 0 {
        match lower.append(upper) {
            Ok(()) => true,
            Err(_) => false,
        }
    } else {
        joined_within(lower, upper, start, end)
    }
}

/// The last lower box and the first upper one become one.
fn joined_within(lower: &mut Vec<Chunk>, upper: &mut Vec<Chunk>, start: usize, end: usize) -> bool
    requires order { start < end }
    requires inside { 0 < end % 256 }
    requires len { vec_len lower.old ≡ (end - 1) / 256 - start / 256 + 1 }
    ensures below { OnTrue result
        ((i : ℕ)
        → start ≤ i
        → i < end
        → in_list start lower.new.items i ≡ in_list start lower.old.items i) }
    ensures above { OnTrue result
        ((i : ℕ) → end ≤ i → in_list start lower.new.items i ≡ in_list end upper.old.items i) }
    ensures apart { OnFalse result (lower.new.items ≡ lower.old.items) }
    ensures upper_apart { OnFalse result
        ((i : ℕ) → end ≤ i → in_list end upper.new.items i ≡ in_list end upper.old.items i) }
{
    let last = end / CHUNK - start / CHUNK;
    if upper.len() == 0 || lower.reserve(upper.len()).is_err() {
        return false;
    }
    blend(&lower[last], &mut upper[0], end % CHUNK);
    lower.truncate(last);
    match lower.append(upper) {
        Ok(()) => true,
        Err(_) => false,
    }
}

/// Copies the lower box's cells below index `n` into the upper one.
fn blend(lower: &[i64; CHUNK], upper: &mut [i64; CHUNK], n: usize)
    requires { n ≤ 256 }
    ensures below { (j : ℕ) → j < n → number upper.new j ≡ number lower.now j }
    ensures above { (j : ℕ) → n ≤ j → number upper.new j ≡ number upper.old j }
{
    upper[..n].copy_from_slice(&lower[..n]);
}
