// Held tables: every public call.

ghost use Rattle.std.specs.Prelude.{◌≡◌, ℕ, ℤ, pos, ◌+◌, ◌*◌, ◌<◌, ◌≤◌, ◌↔◌, ◌&&◌, not, nat_le};
ghost use Rattle.std.specs.Prelude.{nat_lt, int_lt, ◌≤ℤ◌, Option, true, false, is_some, IsTrue};
ghost use Rattle.std.specs.Prelude.{IsSome, IfOk, IfErr, OnOk, OnErr, Ok, MatchOption, None};
ghost use Rattle.std.specs.Prelude.{length};
ghost use Rattle.std.specs.Vec.{vec_len};
ghost use Rattle.std.specs.FinMap.{empty};
ghost use Rattle.slices.specs.Cells.{at_place, listed, StandsAt};
ghost use Rattle.slices.specs.Holding.{cell_at, IsWhole, rows_below, rows_from, without_row};
ghost use Rattle.slices.specs.Holding.{row_below, row_from, with_cell, together, shared, own};
ghost use Rattle.slices.specs.Holding.{SameSize, CommonCell, CauseOf, SameCells};
ghost use Rattle.std.specs.Ordering.{int_eq};

use crate::pieces::Pieces;
use crate::store::{Parts, Store};
use std::alloc::Global;
use std::marker::Model;
use tp_value::NoMemory;

/// A table of which some cells are held, all or none. It is seen as its size, the finite map from
/// (row, column) to the number that is held there, and whether the cells are owned, so that they
/// are written without asking for memory.
#[derive(Drop)]
pub struct Held {
    rows: u32,
    cols: u32,
    store: Store,
}

impl Model for Held {
    ghost use Rattle.slices.specs.Holding.{Holding, holding_code};

    ghost Value = { Holding };

    ghost coded = { holding_code };

    ghost use Rattle.slices.specs.View.{holding, IsKept};

    ghost view = { holding };

    ghost invariant = { IsKept };
}

/// Why two held tables are not put together.
#[derive(Clone, Copy, PartialEq, Eq, Debug)]
pub enum HeldFault {
    /// They have different sizes.
    Sizes,
    /// A cell is in both.
    Overlap,
    /// Memory is wanting.
    NoMemory,
}

impl Held {
    /// An owned table that holds every cell. The cells stand row by row, `rows * cols` of them. It
    /// takes no memory; the value goes on with the allocator of `cells`.
    pub fn whole(rows: u32, cols: u32, cells: Vec<i64>) -> Held
        requires { vec_len cells ≡ rows * cols }
        ensures rows { result.rows ≡ rows }
        ensures cols { result.cols ≡ cols }
        ensures cells { (row col : ℤ) →
            cell_at result row col ≡ listed rows cols cells.items row col }
        ensures owned { result.owned ≡ true }
    {
        Held {
            rows,
            cols,
            store: Store::Whole(cells),
        }
    }

    /// An owned table of this size that holds no cell. It takes no memory.
    pub fn none(alloc: Global, rows: u32, cols: u32) -> Held
        ensures rows { result.rows ≡ rows }
        ensures cols { result.cols ≡ cols }
        ensures cells { result.cells ≡ empty }
        ensures owned { result.owned ≡ true }
    {
        Held {
            rows,
            cols,
            store: Store::Parted(Parts::Owned(Pieces::none(alloc))),
        }
    }

    /// The number of rows of the table, held or not.
    pub fn rows(&self) -> u32
        ensures { result ≡ self.now.rows }
    {
        self.rows
    }

    /// The number of columns of the table, held or not.
    pub fn cols(&self) -> u32
        ensures { result ≡ self.now.cols }
    {
        self.cols
    }

    /// Whether every cell is held.
    pub fn is_whole(&self) -> bool
        ensures { IsTrue result ↔ IsWhole self.now }
    {
        self.store.is_full(self.end())
    }

    /// The number at a row and a column; None exactly where the cell isn't held.
    #[inline(always)]
    pub fn fetch(&self, row: i64, col: i64) -> Option<i64>
        ensures { result ≡ cell_at self.now row col }
    {
        match self.position(row, col) {
            Some(at) => self.store.get(at),
            None => None,
        }
    }

    /// Sets one cell. `Ok(false)` comes exactly where the cell isn't held, and changes nothing. It
    /// takes memory only at a held cell of a value that isn't owned, for a copy of its cells.
    #[inline(always)]
    pub fn put(&mut self, row: i64, col: i64, value: i64) -> Result<bool, NoMemory>
        ensures found { IfOk result (λ done. done ≡ is_some (cell_at self.old row col)) }
        ensures set { result ≡ Ok true → self.new ≡ with_cell self.old row col value }
        ensures not_held { result ≡ Ok false → self.new ≡ self.old }
        ensures err { OnErr result (self.new ≡ self.old) }
        ensures no_memory { OnErr result ((self.old.owned ≡ false)
            × IsSome (cell_at self.old row col)) }
    {
        match self.position(row, col) {
            Some(at) => match self.store.put(at, value) {
                Some(done) => Ok(done),
                None => self.put_shared(row, col, value),
            },
            None => Ok(false),
        }
    }

    /// `put` where others read the cells too.
    #[inline(never)]
    fn put_shared(&mut self, row: i64, col: i64, value: i64) -> Result<bool, NoMemory>
        requires { self.old.owned ≡ false }
        ensures found { IfOk result (λ done. done ≡ is_some (cell_at self.old row col)) }
        ensures set { result ≡ Ok true → self.new ≡ with_cell self.old row col value }
        ensures not_held { result ≡ Ok false → self.new ≡ self.old }
        ensures err { OnErr result (self.new ≡ self.old) }
        ensures no_memory { OnErr result (IsSome (cell_at self.old row col)) }
    {
        let end = self.end();
        match self.position(row, col) {
            Some(at) => Ok(self.store.put_shared(at, value, end)?),
            None => Ok(false),
        }
    }

    /// Keeps the held cells in rows below `at`, and hands out those from `at` on. Every number is
    /// fit for `at`. Both values are owned.
    pub fn give_rows(&mut self, at: i64) -> Result<Held, NoMemory>
        ensures kept { OnOk result (self.new ≡ rows_below self.old at) }
        ensures given { IfOk result (λ upper. upper ≡ rows_from self.old at) }
        ensures err { OnErr result (self.new ≡ self.old) }
    {
        let start = clamped(at, self.rows) * self.cols as usize;
        let end = self.end();
        let upper = self.store.split(start, end)?;
        Ok(Held {
            rows: self.rows,
            cols: self.cols,
            store: Store::Parted(Parts::Owned(upper)),
        })
    }

    /// Takes the held cells of a row out of itself, and hands them out as those in columns below
    /// `at` and those from `at` on. A row that isn't there gives nothing. All three are owned.
    pub fn give_cells(&mut self, row: i64, at: i64) -> Result<(Held, Held), NoMemory>
        ensures kept { OnOk result (self.new ≡ without_row self.old row) }
        ensures lower { IfOk result (λ parts. parts.0 ≡ row_below self.old row at) }
        ensures upper { IfOk result (λ parts. parts.1 ≡ row_from self.old row at) }
        ensures err { OnErr result (self.new ≡ self.old) }
    {
        let cut = row_cut(self.rows, self.cols, row, at);
        let end = self.end();
        let (lower, upper) = self.store.cut_out(cut.low, cut.mid, cut.high, end)?;
        Ok((
            Held {
                rows: self.rows,
                cols: self.cols,
                store: Store::Parted(Parts::Owned(lower)),
            },
            Held {
                rows: self.rows,
                cols: self.cols,
                store: Store::Parted(Parts::Owned(upper)),
            },
        ))
    }

    /// Takes the other's cells in, and owns them all. It is refused where the sizes differ, then
    /// where a cell is in both, and hands the other back then.
    pub fn append(&mut self, upper: Held) -> Result<(), (Held, HeldFault)>
        ensures joined { OnOk result (self.new ≡ together self.old upper) }
        ensures apart { OnOk result (SameSize self.old upper × (CommonCell self.old upper → ⊥)) }
        ensures cause { IfErr result (λ refused. CauseOf refused.1 self.old upper) }
        ensures handed_back { IfErr result (λ refused. refused.0 ≡ upper) }
        ensures err { OnErr result (self.new ≡ self.old) }
    {
        if self.rows != upper.rows || self.cols != upper.cols {
            return Err((upper, HeldFault::Sizes));
        }
        let end = self.end();
        let Held {
            rows,
            cols,
            mut store,
        } = upper;
        self.store.open();
        store.open();
        if self.store.pieces().overlaps(store.pieces()) {
            return Err((Held { rows, cols, store }, HeldFault::Overlap));
        }
        if let Err(store) = self.store.take_in(store, end) {
            return Err((Held { rows, cols, store }, HeldFault::NoMemory));
        }
        self.store.close(end);
        Ok(())
    }

    /// A second value with the same cells, for reading; neither is owned then. Where memory is
    /// wanting the cells stay.
    pub fn share(&mut self) -> Result<Held, NoMemory>
        ensures kept { OnOk result (self.new ≡ shared self.old) }
        ensures second { IfOk result (λ other. other ≡ shared self.old) }
        ensures err { OnErr result (SameCells self.old self.new) }
    {
        let end = self.end();
        let store = self.store.share(end)?;
        Ok(Held {
            rows: self.rows,
            cols: self.cols,
            store,
        })
    }

    /// Makes the value owned, and changes no cell.
    pub fn own(&mut self) -> Result<(), NoMemory>
        ensures ok { OnOk result (self.new ≡ own self.old) }
        ensures err { OnErr result (self.new ≡ self.old) }
        ensures no_memory { OnErr result (self.old.owned ≡ false) }
    {
        let end = self.end();
        self.store.own(end)?;
        Ok(())
    }

    /// The position of a cell, counted row by row.
    #[inline(always)]
    fn position(&self, row: i64, col: i64) -> Option<usize>
        ensures { MatchOption result
            ((value : ℕ → Option ℤ) → at_place self.now.rows self.now.cols value row col ≡ None)
            (StandsAt self.now.rows self.now.cols row col) }
    {
        // A number below 0 wraps to one above each size.
        if row.cast_unsigned() >= u64::from(self.rows) {
            return None;
        }
        if col.cast_unsigned() >= u64::from(self.cols) {
            return None;
        }
        Some(row.cast_unsigned() as usize * self.cols as usize + col.cast_unsigned() as usize)
    }

    fn end(&self) -> usize
        ensures { result ≡ self.now.rows * self.now.cols }
    {
        self.rows as usize * self.cols as usize
    }
}

/// The number, or the nearest from 0 to `limit`.
fn clamped(at: i64, limit: u32) -> usize
    ensures within { result ≤ limit }
    ensures below { (i : ℕ) → i < limit → nat_lt i result ≡ int_lt (pos i) at }
{
    if at < 0 {
        return 0;
    }
    if at >= i64::from(limit) {
        return limit as usize;
    }
    at as usize
}

/// Where a row begins and ends, and where its columns from `at` on begin.
#[derive(Clone, Copy)]
struct RowCut {
    low: usize,
    mid: usize,
    high: usize,
}

fn row_cut(rows: u32, cols: u32, row: i64, at: i64) -> RowCut
    ensures order { (result.low ≤ result.mid) × (result.mid ≤ result.high) }
    ensures row { (r c : ℕ)
        → r < rows
        → c < cols
        → nat_le result.low (r * cols + c) && nat_lt (r * cols + c) result.high
        ≡ int_eq (pos r) row }
    ensures lower { (r c : ℕ)
        → r < rows
        → c < cols
        → nat_le result.low (r * cols + c) && nat_lt (r * cols + c) result.mid
        ≡ int_eq (pos r) row && int_lt (pos c) at }
    ensures upper { (r c : ℕ)
        → r < rows
        → c < cols
        → nat_le result.mid (r * cols + c) && nat_lt (r * cols + c) result.high
        ≡ int_eq (pos r) row && not (int_lt (pos c) at) }
{
    if row < 0 || row >= i64::from(rows) {
        return RowCut {
            low: 0,
            mid: 0,
            high: 0,
        };
    }
    let low = magnitude(row) * cols as usize;
    RowCut {
        low,
        mid: low + clamped(at, cols),
        high: low + cols as usize,
    }
}

fn magnitude(number: i64) -> usize
    requires { pos 0 ≤ℤ number }
    ensures { pos result ≡ number }
{
    number as usize
}
