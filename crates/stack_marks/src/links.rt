// The marks of a stack, linked from each marked cell to the next older and the next newer.

ghost use Rattle.std.specs.Prelude.{◌≡◌, ◌≢◌, ◌+◌, ◌-◌, ◌<◌, ◌≤◌, ◌^◌, [], ◌∷◌, ◌++◌, length};
ghost use Rattle.std.specs.Prelude.{replicate, true, All, Any, IfOk, IfSome, IfNone, OnOk};
ghost use Rattle.std.specs.Prelude.{slice_get};
ghost use Rattle.std.specs.Bool.{OnTrue, OnFalse};
ghost use Rattle.std.specs.Vec.{vec_capacity};
ghost use Rattle.stack_marks.specs.Links.{without, from_on};
ghost use Rattle.stack_marks.specs.Linked.{bare, marks_from, AreLinked};
ghost use Rattle.stack_marks.specs.Stacks.{InOrder};

use crate::mark::Mark;
use std::alloc::{AllocError, Global};
use std::marker::Model;

/// What a cell has beside its word: whether it is marked, and where it is, the rest of its mark and
/// the positions of its neighbours among the marked cells. The oldest's `older` and the newest's
/// `newer` are not read.
#[derive(Clone, Copy)]
pub(crate) struct Link {
    pub(crate) base: u64,
    pub(crate) cells: u64,
    pub(crate) older: u64,
    pub(crate) newer: u64,
    pub(crate) split: u32,
    pub(crate) marked: bool,
}

/// The positions of the oldest and the newest marked cell.
#[derive(Clone, Copy)]
pub(crate) struct Ends {
    pub(crate) oldest: u64,
    pub(crate) newest: u64,
}

/// The links of a stack's cells, from a position on. It is seen as that position, the number of
/// cells that there is room for, and the list of the marks in the order of their cells. Behind the
/// newest mark links may be missing: those cells were never marked.
#[derive(Drop)]
pub(crate) struct Links {
    lowest: u64,
    links: Vec<Link>,
    ends: Option<Ends>,
}

impl Model for Links {
    ghost use Rattle.stack_marks.specs.Links.{LinksValue};

    ghost Value = { LinksValue };

    ghost use Rattle.stack_marks.specs.Linked.{links_value, IsLinked};

    ghost view = { links_value };

    ghost invariant = { IsLinked };
}

/// The link of a cell without a mark.
const BARE: Link = Link {
    base: 0,
    cells: 0,
    older: 0,
    newer: 0,
    split: 0,
    marked: false,
};

impl Links {
    pub(crate) fn new(alloc: Global, lowest: u64) -> Links
        ensures lowest { result.lowest ≡ lowest }
        ensures marks { result.marks ≡ [] }
    {
        Links {
            lowest,
            links: Vec::new(alloc),
            ends: None,
        }
    }

    pub(crate) fn with_room(alloc: Global, lowest: u64, room: usize) -> Result<Links, AllocError>
        ensures lowest { IfOk result (λ links. links.lowest ≡ lowest) }
        ensures marks { IfOk result (λ links. links.marks ≡ []) }
        ensures room { IfOk result (λ links. room ≤ links.room) }
    {
        let links = Vec::with_capacity(alloc, room)?;
        Ok(Links {
            lowest,
            links,
            ends: None,
        })
    }

    /// The position of the lowest cell that there is a link for.
    pub(crate) fn lowest(&self) -> u64
        ensures { result ≡ self.now.lowest }
    {
        self.lowest
    }

    /// The number of cells from there on that there is room for.
    pub(crate) fn room(&self) -> usize
        ensures { result ≡ self.now.room }
    {
        self.links.capacity()
    }

    /// Makes room for so many cells.
    pub(crate) fn reserve(&mut self, room: usize) -> Result<(), AllocError>
        ensures lowest { self.new.lowest ≡ self.old.lowest }
        ensures marks { self.new.marks ≡ self.old.marks }
        ensures grown { self.old.room ≤ self.new.room }
        ensures room { OnOk result (room ≤ self.new.room) }
    {
        self.links.reserve(room.saturating_sub(self.links.len()))
    }

    /// The position of the newest mark.
    pub(crate) fn newest(&self) -> Option<u64>
        ensures some { IfSome result
            (λ newest. Any (λ m. m.at ≡ newest) self.now.marks
            × All (λ m. m.at ≤ newest) self.now.marks) }
        ensures none { IfNone result (self.now.marks ≡ []) }
    {
        match self.ends {
            Some(ends) => Some(ends.newest),
            None => None,
        }
    }

    /// The oldest mark.
    pub(crate) fn oldest(&self) -> Option<Mark>
        ensures { result ≡ slice_get self.now.marks 0 }
    {
        match self.ends {
            Some(ends) => {
                let link = self.links[(ends.oldest - self.lowest) as usize];
                Some(Mark {
                    at: ends.oldest,
                    base: link.base,
                    cells: link.cells,
                    split: link.split,
                })
            }
            None => None,
        }
    }

    /// Whether a mark stands at a position.
    pub(crate) fn is_marked(&self, at: u64) -> bool
        requires { self.now.lowest ≤ at }
        ensures yes { OnTrue result (Any (λ m. m.at ≡ at) self.now.marks) }
        ensures no { OnFalse result (All (λ m. m.at ≢ at) self.now.marks) }
    {
        let index = (at - self.lowest) as usize;
        index < self.links.len() && self.links[index].marked
    }

    /// Adds a mark above all others, on a cell that there is room for. It takes no memory.
    #[inline(always)]
    pub(crate) fn add(&mut self, mark: Mark)
        requires lowest { self.old.lowest ≤ mark.at }
        requires room { mark.at < self.old.lowest + self.old.room }
        requires newest { All (λ other. other.at < mark.at) self.old.marks }
        ensures lowest { self.new.lowest ≡ self.old.lowest }
        ensures room { self.old.room ≤ self.new.room }
        ensures marks { self.new.marks ≡ self.old.marks ++ mark ∷ [] }
    {
        if (mark.at - self.lowest) as usize >= self.links.len() {
            self.add_filling(mark.at, mark.base, mark.cells, mark.split);
        } else {
            place(self.lowest, &mut self.links, &mut self.ends, mark);
        }
    }

    /// The same where links may be missing. It stands apart and takes the mark in its parts, so
    /// that the call that finds the link makes no call and writes no mark to memory.
    #[inline(never)]
    fn add_filling(&mut self, at: u64, base: u64, cells: u64, split: u32)
        requires lowest { self.old.lowest ≤ at }
        requires room { at < self.old.lowest + self.old.room }
        requires newest { All (λ other. other.at < at) self.old.marks }
        ensures lowest { self.new.lowest ≡ self.old.lowest }
        ensures room { self.old.room ≤ self.new.room }
        ensures marks { self.new.marks
            ≡ self.old.marks ++ record { at = at; base = base; cells = cells; split = split } ∷ [] }
    {
        let mark = Mark {
            at,
            base,
            cells,
            split,
        };
        fill(&mut self.links, (at - self.lowest) as usize + 1);
        place(self.lowest, &mut self.links, &mut self.ends, mark);
    }

    /// Takes the mark at a position away, and has its neighbours name each other. Most marks that
    /// go are the newest.
    pub(crate) fn take(&mut self, at: u64)
        requires { Any (λ m. m.at ≡ at) self.old.marks }
        ensures { self.new ≡ without self.old at }
    {
        let index = (at - self.lowest) as usize;
        let link = self.links[index];
        self.links[index].marked = false;
        match &mut self.ends {
            Some(ends) => {
                if at == ends.newest {
                    if at == ends.oldest {
                        self.ends = None;
                    } else {
                        ends.newest = link.older;
                    }
                } else if at == ends.oldest {
                    ends.oldest = link.newer;
                } else {
                    self.links[(link.older - self.lowest) as usize].newer = link.newer;
                    self.links[(link.newer - self.lowest) as usize].older = link.older;
                }
            }
            None => unreachable!(),
        }
    }

    /// Takes the marks below a position away, the oldest first.
    pub(crate) fn keep_from(&mut self, low: u64)
        requires { InOrder 0 (2 ^ 62) self.old.marks }
        ensures { self.new ≡ from_on self.old low }
    {
        while let Some(mark) = self.oldest() {
            if mark.at >= low {
                return;
            }
            self.take(mark.at);
        }
    }
}

/// At least so many links, where there is room for them.
fn fill(links: &mut Vec<Link>, len: usize)
    requires { len ≤ vec_capacity links.old }
    ensures items { links.new.items
        ≡ links.old.items ++ replicate (len - length links.old.items) bare }
    ensures room { vec_capacity links.old ≤ vec_capacity links.new }
{
    if links.len() < len {
        links.resize(len, BARE).unwrap();
    }
}

/// Marks a cell above all marked ones that has a link. It writes the link in place, and leaves out
/// what isn't read of the newest.
#[inline(always)]
fn place(lowest: u64, links: &mut Vec<Link>, ends: &mut Option<Ends>, mark: Mark)
    requires low { lowest ≤ mark.at }
    requires high { mark.at - lowest < length links.old.items }
    requires newest { All (λ other. other.at < mark.at) (marks_from lowest links.old.items) }
    requires linked { AreLinked lowest links.old.items ends.old }
    ensures linked { AreLinked lowest links.new.items ends.new }
    ensures marks { marks_from lowest links.new.items
        ≡ marks_from lowest links.old.items ++ mark ∷ [] }
    ensures room { vec_capacity links.old ≤ vec_capacity links.new }
{
    let link = &mut links[(mark.at - lowest) as usize];
    link.base = mark.base;
    link.cells = mark.cells;
    link.split = mark.split;
    link.marked = true;
    match ends {
        None => {
            *ends = Some(Ends {
                oldest: mark.at,
                newest: mark.at,
            });
        }
        Some(ends) => {
            link.older = ends.newest;
            links[(ends.newest - lowest) as usize].newer = mark.at;
            ends.newest = mark.at;
        }
    }
}
