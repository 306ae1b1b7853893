// A stack cut at an activation.

ghost use Rattle.std.specs.Prelude.{◌≡◌, ◌+◌, ◌≤◌, ◌-◌, [], length, take, drop, nat_le};
ghost use Rattle.std.specs.Prelude.{OnOk, IfOk, IfErr};
ghost use Rattle.stack_marks.specs.Cuts.{copied};
ghost use Rattle.stack_marks.specs.Links.{HasLinks};
ghost use Rattle.stack_marks.specs.Stacks.{IsSound, rest_of, left_of, child_of};
ghost use Rattle.stack_marks.specs.Stacks.{from_position, left_base};
ghost use Rattle.stack_marks.specs.Causes.{Holds, CutCause};

use crate::cells::Stack;
use crate::links::Links;
use crate::mark::StackFault;
use std::alloc::{AllocError, Global};
use tpal_syntax::{CutKind, Word};

/// The three parts of a stack that is cut. Each has room for a mark on each of its cells.
#[derive(Drop)]
pub struct Cut {
    /// What the outer task keeps while the two sides run.
    pub rest: Stack,
    /// What the left goes on with.
    pub left: Stack,
    /// What the child begins with.
    pub child: Stack,
}

impl Stack {
    /// Cuts the stack at an activation, `cells` cells from position `base` on: the rest has all
    /// cells below the activation's end, the child those of the activation, and the left those from
    /// `base` on for a loop, and from the activation's end on for a call, with the marks there. It
    /// is refused where the activation isn't in the stack, and for want of memory, and hands the
    /// stack back then.
    pub fn cut(self, base: u64, cells: u64, kind: CutKind) -> Result<Cut, (Stack, StackFault)>
        ensures inside { OnOk result (Holds self base cells) }
        ensures rest { IfOk result (λ cut. cut.rest ≡ rest_of self base cells) }
        ensures left { IfOk result (λ cut. cut.left ≡ left_of self base cells kind) }
        ensures child { IfOk result (λ cut. cut.child ≡ child_of self base cells) }
        ensures cause { IfErr result (λ refused. CutCause refused.1 self base cells) }
        ensures handed_back { IfErr result (λ refused. refused.0 ≡ self) }
    {
        let top = self.base + self.cells.len() as u64;
        if base < self.base || base > top || cells > top - base {
            return Err((self, StackFault::OutOfRange));
        }
        let low = (base - self.base) as usize;
        let high = low + cells as usize;
        let from = start_of(kind, low, high);
        let at = Places { low, high, from };
        match copies(&self, at, spare_of(kind)) {
            Ok(copies) => Ok(parts(self, copies, at)),
            Err(_) => Err((self, StackFault::NoMemory)),
        }
    }
}

/// Where the left of a cut begins: with the activation, or behind it.
fn start_of(kind: CutKind, low: usize, high: usize) -> usize
    requires { low ≤ high }
    ensures { result ≡ left_base kind low (high - low) }
{
    match kind {
        CutKind::Loop => low,
        CutKind::Call => high,
    }
}

/// The cells that what is copied of a stack has room for beside its own, so that it needn't grow at
/// once: a task that goes on behind two calls makes an activation first, one behind a loop none.
fn spare_of(kind: CutKind) -> usize
    ensures { result ≤ 64 }
{
    match kind {
        CutKind::Loop => 0,
        CutKind::Call => 64,
    }
}

/// Where a stack of so many cells is cut: the rest has those below `high`, the child those of them
/// from `low` on, and the left those from `from` on.
#[derive(Clone, Copy)]
struct Places {
    low: usize,
    high: usize,
    from: usize,
}

/// Whether the left stays where the cells are and the rest is copied, or the other way round: what
/// has fewer cells is copied.
fn left_stays(len: usize, at: Places) -> bool
    requires { at.from ≤ len }
    ensures { result ≡ nat_le at.high (len - at.from) }
{
    at.high <= len - at.from
}

/// All of a cut that takes memory: the child's cells, those of the rest or of the left, and room
/// for marks.
#[derive(Drop)]
struct CutMemory {
    child: Vec<Word>,
    part: Vec<Word>,
    child_links: Links,
    rest_links: Links,
}

/// A copy of words that has room for so many more at least.
fn copy_of(alloc: Global, words: &[Word], spare: usize) -> Result<Vec<Word>, AllocError>
    requires { spare ≤ 64 }
    ensures { IfOk result (λ copy. copy.items ≡ words.now) }
{
    let mut copy = Vec::with_capacity(alloc, words.len() + spare)?;
    copy.extend_from_slice(words)?;
    Ok(copy)
}

/// The memory of a cut at these places.
fn copies(stack: &Stack, at: Places, spare: usize) -> Result<CutMemory, AllocError>
    requires order { (at.low ≤ at.high) × (at.high ≤ length stack.now.cells) }
    requires within { at.from ≤ length stack.now.cells }
    requires spare { spare ≤ 64 }
    ensures child { IfOk result (λ c.
        c.child.items ≡ take (at.high - at.low) (drop at.low stack.now.cells)) }
    ensures part { IfOk result (λ c. c.part.items ≡ copied stack.now.cells at) }
    ensures child_links { IfOk result (λ c.
        HasLinks c.child_links (stack.now.base + at.low) (at.high - at.low)) }
    ensures rest_links { IfOk result (λ c. HasLinks c.rest_links stack.now.base at.high) }
{
    let alloc = *stack.cells.allocator();
    let child = copy_of(alloc, &stack.cells[at.low..at.high], 0)?;
    let part = if left_stays(stack.cells.len(), at) {
        copy_of(alloc, &stack.cells[..at.high], spare)?
    } else {
        copy_of(alloc, &stack.cells[at.from..], spare)?
    };
    let child_links = Links::with_room(alloc, stack.base + at.low as u64, at.high - at.low)?;
    let rest_links = Links::with_room(alloc, stack.base, at.high + spare)?;
    Ok(CutMemory {
        child,
        part,
        child_links,
        rest_links,
    })
}

/// Moves the cells from an index on down to the first, and drops those below.
fn lower(cells: &mut Vec<Word>, from: usize)
    requires { from ≤ length cells.old.items }
    ensures { cells.new.items ≡ drop from cells.old.items }
{
    let len = cells.len() - from;
    for index in 0..len {
        cells[index] = cells[from + index];
    }
    cells.truncate(len);
}

/// The cells of the rest and of the left, of a stack's and of the part that was copied of them.
fn rest_and_left(mut cells: Vec<Word>, part: Vec<Word>, at: Places) -> (Vec<Word>, Vec<Word>)
    requires order { at.high ≤ length cells.items }
    requires within { at.from ≤ length cells.items }
    requires part { part.items ≡ copied cells.items at }
    ensures rest { result.0.items ≡ take at.high cells.items }
    ensures left { result.1.items ≡ drop at.from cells.items }
{
    if left_stays(cells.len(), at) {
        lower(&mut cells, at.from);
        (part, cells)
    } else {
        cells.truncate(at.high);
        (cells, part)
    }
}

/// The parts of a stack that is cut at these places, of what was copied of it.
fn parts(stack: Stack, copies: CutMemory, at: Places) -> Cut
    requires order { (at.low ≤ at.high) × (at.high ≤ length stack.cells) }
    requires within { at.from ≤ length stack.cells }
    requires child { copies.child.items ≡ take (at.high - at.low) (drop at.low stack.cells) }
    requires part { copies.part.items ≡ copied stack.cells at }
    requires child_links { HasLinks copies.child_links (stack.base + at.low) (at.high - at.low) }
    requires rest_links { HasLinks copies.rest_links stack.base at.high }
    ensures rest { result.rest
        ≡ record { base = stack.base; cells = take at.high stack.cells; marks = [] } }
    ensures left { result.left ≡ from_position stack (stack.base + at.from) }
    ensures child { result.child
        ≡ record {
          base = stack.base + at.low;
          cells = take (at.high - at.low) (drop at.low stack.cells);
          marks = [];
        } }
{
    let CutMemory {
        child,
        part,
        child_links,
        rest_links,
    } = copies;
    let Stack {
        base: lowest,
        cells,
        mut links,
    } = stack;
    let left_base = lowest + at.from as u64;
    links.keep_from(left_base);
    let (rest, left) = rest_and_left(cells, part, at);
    Cut {
        rest: Stack {
            base: lowest,
            cells: rest,
            links: rest_links,
        },
        left: Stack {
            base: left_base,
            cells: left,
            links,
        },
        child: Stack {
            base: lowest + at.low as u64,
            cells: child,
            links: child_links,
        },
    }
}

/// What is true of every stack. The function does nothing: its contract is for those who reason.
pub fn in_order(stack: &Stack)
    ensures { IsSound stack.now }
{
    let _base = &stack.base;
}
