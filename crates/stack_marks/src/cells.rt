// The stack, and the calls on its cells.

ghost use Rattle.std.specs.Prelude.{◌≡◌, ℕ, ◌+◌, ◌-◌, ◌<◌, ◌≤◌, ◌^◌, [], length, All, Any, IsSome};
ghost use Rattle.std.specs.Prelude.{IfOk, IfErr, OnOk, OnErr, MatchOption, Ok, Err, Some, None};
ghost use Rattle.std.specs.Prelude.{◌++◌, replicate};
ghost use Rattle.std.specs.Bool.{OnTrue, OnFalse};
ghost use Rattle.std.specs.Vec.{vec_len, vec_capacity};
ghost use Rattle.tpal_syntax.specs.declared.words.Word.TheVariants.{Nil};
ghost use Rattle.stack_marks.specs.Stacks.{word_at, pushed, popped, with_word, InOrder};
ghost use Rattle.stack_marks.specs.Causes.{HasRoom, PushCause, PopCause, new_top, IsNoPosition};
ghost use Rattle.stack_marks.specs.Causes.{IsIndex};

use crate::links::Links;
use crate::mark::StackFault;
use std::alloc::{AllocError, Global};
use std::marker::Model;
use tp_value::MAX_STACK_POSITION;
use tpal_syntax::Word;

/// A stack of words with marks on some of its cells. It is seen as the position of its lowest cell,
/// the list of its cells from there upward, and the list of its marks in the order of their cells.
/// What a cell has beside its word, its mark and its links, lies apart from the word: so a word
/// takes 16 bytes, and `get` and `set` touch nothing else.
#[derive(Drop)]
pub struct Stack {
    pub(crate) base: u64,
    pub(crate) cells: Vec<Word>,
    pub(crate) links: Links,
}

impl Model for Stack {
    ghost use Rattle.stack_marks.specs.Stacks.{StackValue};

    ghost Value = { StackValue };

    ghost use Rattle.stack_marks.specs.View.{stack_value, IsKept};

    ghost view = { stack_value };

    ghost invariant = { IsKept };
}

/// Cells with nothing in them, as many as most calls push. To copy them is faster than to write
/// each.
static NOTHING: [Word; 64] = [Word::Nil; 64];

/// The cells that a stack has room for once its first ones were too few: so one that a fork makes,
/// with few cells, grows at once to what most need.
const FEWEST: usize = 1024;

impl Stack {
    /// An empty stack. It takes no memory.
    pub fn new(alloc: Global, base: u64) -> Stack
        requires { base ≤ 2 ^ 62 }
        ensures base { result.base ≡ base }
        ensures cells { result.cells ≡ [] }
        ensures marks { result.marks ≡ [] }
    {
        Stack {
            base,
            cells: Vec::new(alloc),
            links: Links::new(alloc, base),
        }
    }

    /// Puts cells with nothing in them on top, and makes room for a mark on each. It is refused
    /// where the stack would reach past 2^62, and for want of memory.
    pub fn push(&mut self, cells: u32) -> Result<(), StackFault>
        ensures pushed { OnOk result (self.new ≡ pushed self.old cells) }
        ensures room { OnOk result (HasRoom self.old cells) }
        ensures cause { IfErr result (λ fault. PushCause fault self.old cells) }
        ensures err { OnErr result (self.new ≡ self.old) }
    {
        let height = self.cells.len() + cells as usize;
        if self.base + height as u64 > MAX_STACK_POSITION
            || self.links.room() < skipped(self.base, &self.links) + height
            || self.cells.capacity() < height
        {
            return self.push_growing(cells);
        }
        add_nothing(&mut self.cells, cells as usize)?;
        Ok(())
    }

    /// The same where there may be no room yet. It stands apart, so that the call that finds room
    /// is short.
    #[inline(never)]
    fn push_growing(&mut self, cells: u32) -> Result<(), StackFault>
        ensures pushed { OnOk result (self.new ≡ pushed self.old cells) }
        ensures room { OnOk result (HasRoom self.old cells) }
        ensures cause { IfErr result (λ fault. PushCause fault self.old cells) }
        ensures err { OnErr result (self.new ≡ self.old) }
    {
        let len = self.cells.len() + cells as usize;
        if self.base + len as u64 > MAX_STACK_POSITION {
            return Err(StackFault::TooLong);
        }
        let fewest = fewest(&self.cells);
        let links = skipped(self.base, &self.links) + len;
        self.links.reserve(links.max(fewest))?;
        self.cells.reserve(len.max(fewest) - self.cells.len())?;
        add_nothing(&mut self.cells, cells as usize)?;
        Ok(())
    }

    /// Takes the top cells off. It is refused where there are fewer, then where one of them carries
    /// a mark. It takes no memory.
    pub fn pop(&mut self, cells: u32) -> Result<(), StackFault>
        ensures popped { OnOk result (self.new ≡ popped self.old cells) }
        ensures held { OnOk result (cells ≤ length self.old.cells) }
        ensures unmarked { OnOk result (All (λ m. m.at < new_top self.old cells) self.old.marks) }
        ensures cause { IfErr result (λ fault. PopCause fault self.old cells) }
        ensures err { OnErr result (self.new ≡ self.old) }
    {
        let cells = cells as usize;
        if self.cells.len() < cells {
            return Err(StackFault::OutOfRange);
        }
        let len = self.cells.len() - cells;
        if stands_from(&self.links, self.base + len as u64) {
            return Err(StackFault::MarkedCell);
        }
        self.cells.truncate(len);
        Ok(())
    }

    /// The word at a position; `OutOfRange` where it isn't one of the stack.
    pub fn get(&self, at: i64) -> Result<Word, StackFault>
        ensures { MatchOption (word_at self.now at) (result ≡ Err StackFault.OutOfRange)
            (λ word. result ≡ Ok word) }
    {
        match index_of(self.base, self.cells.len(), at) {
            Some(index) => Ok(self.cells[index]),
            None => Err(StackFault::OutOfRange),
        }
    }

    /// Sets the word at a position, and leaves a mark there; `OutOfRange` where it isn't one of the
    /// stack.
    pub fn set(&mut self, at: i64, word: Word) -> Result<(), StackFault>
        ensures set { OnOk result (self.new ≡ with_word self.old at word) }
        ensures held { OnOk result (IsSome (word_at self.old at)) }
        ensures cause { IfErr result (λ fault. IsNoPosition fault self.old at) }
        ensures err { OnErr result (self.new ≡ self.old) }
    {
        match index_of(self.base, self.cells.len(), at) {
            Some(index) => {
                self.cells[index] = word;
                Ok(())
            }
            None => Err(StackFault::OutOfRange),
        }
    }
}

/// The cells that a stack with these has room for once it grows. Its first ones are often all that
/// it needs.
fn fewest(cells: &[Word]) -> usize {
    if cells.is_empty() { 0 } else { FEWEST }
}

/// Adds so many cells with nothing in them.
#[inline(always)]
fn add_nothing(cells: &mut Vec<Word>, count: usize) -> Result<(), AllocError>
    requires { vec_len cells.old + count < 2 ^ 64 }
    ensures added { OnOk result (cells.new.items ≡ cells.old.items ++ replicate count Nil) }
    ensures err { OnErr result (cells.new.items ≡ cells.old.items) }
    ensures room { vec_capacity cells.old ≤ vec_capacity cells.new }
{
    if count > NOTHING.len() {
        return cells.resize(cells.len() + count, Word::Nil);
    }
    cells.extend_from_slice(&NOTHING[..count])
}

/// How many cells lie below a position, where it is one of `len` from `base` on.
pub(crate) fn index_of(base: u64, len: usize, at: i64) -> Option<usize>
    requires base { base ≤ 2 ^ 62 }
    requires len { len ≤ 2 ^ 62 }
    ensures { IsIndex base len at result }
{
    // A position below the base wraps to an index above each length.
    let index = at.cast_unsigned().wrapping_sub(base) as usize;
    if index < len { Some(index) } else { None }
}

/// How many links lie below a position: a cut leaves them there.
fn skipped(base: u64, links: &Links) -> usize
    requires { links.now.lowest ≤ base }
    ensures { links.now.lowest + result ≡ base }
{
    (base - links.lowest()) as usize
}

/// Whether a mark stands at a position or above.
pub(crate) fn stands_from(links: &Links, low: u64) -> bool
    ensures yes { OnTrue result (Any (λ m. low ≤ m.at) links.now.marks) }
    ensures no { OnFalse result (All (λ m. m.at < low) links.now.marks) }
{
    match links.newest() {
        Some(newest) => newest >= low,
        None => false,
    }
}
