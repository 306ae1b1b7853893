// The calls on marks. None of them takes memory: each cell came with room for a mark and its links.

ghost use Rattle.std.specs.Prelude.{◌≡◌, ◌≢◌, ℕ, pos, ◌<◌, ◌^◌, length, All, Any, IsSome, IfSome};
ghost use Rattle.std.specs.Prelude.{IfNone, IfErr, OnOk, OnErr, slice_get};
ghost use Rattle.stack_marks.specs.Stacks.{word_at, marked, unmarked, without_oldest, InOrder};
ghost use Rattle.stack_marks.specs.Causes.{HoldsMark, MarkCause, UnmarkCause};

use crate::cells::{Stack, index_of, stands_from};
use crate::mark::{Mark, StackFault};

impl Stack {
    /// Adds a mark, the newest. It is refused where its cells are not in the stack or its cell is
    /// not one of them, then where a mark stands on its cell or above.
    #[inline(always)]
    pub fn mark(&mut self, mark: Mark) -> Result<(), StackFault>
        ensures marked { OnOk result (self.new ≡ marked self.old mark) }
        ensures inside { OnOk result (HoldsMark self.old mark) }
        ensures newest { OnOk result (All (λ other. other.at < mark.at) self.old.marks) }
        ensures cause { IfErr result (λ fault. MarkCause fault self.old mark) }
        ensures err { OnErr result (self.new ≡ self.old) }
    {
        let top = self.base + self.cells.len() as u64;
        if mark.base < self.base || mark.base > top || mark.cells > top - mark.base {
            return Err(StackFault::OutOfRange);
        }
        if mark.at < mark.base || mark.at - mark.base >= mark.cells {
            return Err(StackFault::OutOfRange);
        }
        if stands_from(&self.links, mark.at) {
            return Err(StackFault::MarkOrder);
        }
        self.links.add(mark);
        Ok(())
    }

    /// Takes the mark at a position away. It is refused where it isn't a position of the stack,
    /// then where no mark stands there.
    pub fn unmark(&mut self, at: i64) -> Result<(), StackFault>
        ensures unmarked { OnOk result (self.new ≡ unmarked self.old at) }
        ensures held { OnOk result (IsSome (word_at self.old at)
            × Any (λ m. pos m.at ≡ at) self.old.marks) }
        ensures cause { IfErr result (λ fault. UnmarkCause fault self.old at) }
        ensures err { OnErr result (self.new ≡ self.old) }
    {
        let index = match index_of(self.base, self.cells.len(), at) {
            Some(index) => index,
            None => return Err(StackFault::OutOfRange),
        };
        let at = self.base + index as u64;
        if !self.links.is_marked(at) {
            return Err(StackFault::NotMarked);
        }
        self.links.take(at);
        Ok(())
    }

    /// The oldest mark; None exactly where no mark stands.
    pub fn oldest(&self) -> Option<Mark>
        ensures { result ≡ slice_get self.now.marks 0 }
    {
        self.links.oldest()
    }

    /// Takes the oldest mark away, and gives it; None exactly where no mark stands.
    pub fn drop_oldest(&mut self) -> Option<Mark>
        ensures oldest { result ≡ slice_get self.old.marks 0 }
        ensures dropped { self.new ≡ without_oldest self.old }
    {
        let oldest = self.links.oldest();
        if let Some(mark) = oldest {
            self.links.take(mark.at);
        }
        oldest
    }
}
