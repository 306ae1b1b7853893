// Where the tables of a forked task are cut, and the parts of each.

ghost use Rattle.std.specs.Prelude.{◌≡◌, IfOk, IfErr, Ok};
ghost use Rattle.tpal_machine.specs.Answer.{FailsAs};
ghost use Rattle.tpal_machine.specs.declared.cut.TableCut.TheVariants.{Whole};
ghost use Rattle.tpal_machine.specs.Cut.{carried_at, carried, cut_of, rest_of, left_of, child_of};
ghost use Rattle.tpal_machine.specs.Cut.{each_part, is_whole, nothing_of};

use crate::faults::Fault;
use crate::flow::Trouble;
use crate::records::register;
use crate::words::number_of;
use slices::Held;
use std::alloc::Global;
use tp_value::NoMemory;
use tpal_syntax::{CarryAt, Word};

/// Where a table is cut.
#[derive(Clone, Copy, PartialEq, Eq, Debug)]
pub enum TableCut {
    /// At a row: the child gets the rows from there on.
    ByRows { at: i64 },
    /// In a row at a column: the child gets the cells from there on, and the rest the other rows.
    ByCells { row: i64, at: i64 },
    /// Nowhere: both sides read it where it is whole.
    Whole,
}

/// A carried table's number, and where it is cut.
#[tactic(auto, using(crate::proofs::NoNumbers::on_number_none))]
fn carried_at(registers: &[Word; 32], item: CarryAt) -> Result<(u8, TableCut), Fault>
    ensures { result ≡ carried_at registers.now item }
{
    match item {
        CarryAt::Rows { table, at } => {
            let at = number_of(register(registers, at))?;
            Ok((table, TableCut::ByRows { at }))
        }
        CarryAt::Cells { table, row, at } => {
            let row = number_of(register(registers, row))?;
            let at = number_of(register(registers, at))?;
            Ok((table, TableCut::ByCells { row, at }))
        }
    }
}

/// The carried tables' numbers, and where each is cut.
#[tactic(auto, using(crate::proofs::Parting::prefixed_nil, crate::proofs::Parting::carried_more, crate::proofs::Parting::carried_refused, crate::proofs::Parting::carried_end))]
pub(crate) fn carried(
    alloc: Global,
    registers: &[Word; 32],
    carries: &[CarryAt],
) -> Result<Vec<(u8, TableCut)>, Trouble>
    ensures ok { IfOk result (λ cuts. carried registers.now carries.now ≡ Ok cuts.items) }
    ensures err { IfErr result (λ trouble. FailsAs (carried registers.now carries.now) trouble) }
{
    let mut cuts = Vec::new(alloc);
    for item in carries {
        let cut = carried_at(registers, *item)?;
        cuts.push(cut)?;
    }
    Ok(cuts)
}

fn cut_of(cuts: &[(u8, TableCut)], table: usize) -> TableCut
    ensures { result ≡ cut_of cuts.now table }
{
    for cut in cuts {
        if cut.0 as usize == table {
            return cut.1;
        }
    }
    TableCut::Whole
}

/// The parts of one table.
#[derive(Drop)]
struct Parts {
    rest: Held,
    left: Held,
    child: Held,
}

#[tactic(auto, using(crate::proofs::Holdings::holding_is))]
fn nothing_of(alloc: Global, held: &Held) -> Held
    ensures { result ≡ nothing_of held.now }
{
    Held::none(alloc, held.rows(), held.cols())
}

#[tactic(auto, using(crate::proofs::Parting::whole_test))]
fn is_whole(held: &Held) -> bool
    ensures { result ≡ is_whole held.now }
{
    held.is_whole()
}

fn cut_table(alloc: Global, held: Held, cut: TableCut) -> Result<Parts, NoMemory>
    ensures rest { IfOk result (λ parts. parts.rest ≡ rest_of cut held) }
    ensures left { IfOk result (λ parts. parts.left ≡ left_of cut held) }
    ensures child { IfOk result (λ parts. parts.child ≡ child_of cut held) }
{
    let mut held = held;
    match cut {
        TableCut::ByRows { at } => {
            let rest = nothing_of(alloc, &held);
            let child = held.give_rows(at)?;
            Ok(Parts {
                rest,
                left: held,
                child,
            })
        }
        TableCut::ByCells { row, at } => {
            let (left, child) = held.give_cells(row, at)?;
            Ok(Parts {
                rest: held,
                left,
                child,
            })
        }
        TableCut::Whole => share_table(alloc, held),
    }
}

fn share_table(alloc: Global, held: Held) -> Result<Parts, NoMemory>
    ensures rest { IfOk result (λ parts. parts.rest ≡ rest_of Whole held) }
    ensures left { IfOk result (λ parts. parts.left ≡ left_of Whole held) }
    ensures child { IfOk result (λ parts. parts.child ≡ child_of Whole held) }
{
    let mut held = held;
    if is_whole(&held) {
        let left = held.share()?;
        let child = held.share()?;
        Ok(Parts {
            rest: held,
            left,
            child,
        })
    } else {
        let left = nothing_of(alloc, &held);
        let child = nothing_of(alloc, &held);
        Ok(Parts {
            rest: held,
            left,
            child,
        })
    }
}

/// The parts of all tables.
#[derive(Drop)]
pub(crate) struct AllParts {
    pub(crate) rest: Vec<Held>,
    pub(crate) left: Vec<Held>,
    pub(crate) child: Vec<Held>,
}

/// Cuts each table where its number says.
#[tactic(auto, using(crate::proofs::Parting::part_push))]
pub(crate) fn cut_tables(
    alloc: Global,
    tables: Vec<Held>,
    cuts: &[(u8, TableCut)],
) -> Result<AllParts, NoMemory>
    ensures rest { IfOk result (λ parts.
        parts.rest.items ≡ each_part rest_of cuts.now 0 tables.items) }
    ensures left { IfOk result (λ parts.
        parts.left.items ≡ each_part left_of cuts.now 0 tables.items) }
    ensures child { IfOk result (λ parts.
        parts.child.items ≡ each_part child_of cuts.now 0 tables.items) }
{
    let mut rest = Vec::new(alloc);
    let mut left = Vec::new(alloc);
    let mut child = Vec::new(alloc);
    for held in tables {
        let parts = cut_table(alloc, held, cut_of(cuts, rest.len()))?;
        rest.push(parts.rest)?;
        left.push(parts.left)?;
        child.push(parts.child)?;
    }
    Ok(AllParts { rest, left, child })
}
