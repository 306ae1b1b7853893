// Notes, each read from the front of a text.

ghost use Rattle.std.specs.Prelude.{◌≡◌, codes, Option, Some, None, IfOk, length, List, ◌++◌};
ghost use Rattle.tpal_syntax.specs.Readers.{many, rename_at, next_rename_at, renames_at, carry_at};
ghost use Rattle.tpal_syntax.specs.Readers.{next_carry_at, carries_at, policy_at, kind_at};
ghost use Rattle.tpal_asm.specs.Reading.{Reads, rest_of, pair_of, onto, carried_rows_rest};
ghost use Rattle.tpal_asm.specs.Reading.{carried_cells_rest, cut_rest, target_rest, ready_rest};
ghost use Rattle.tpal_asm.specs.Reading.{jtppt_rest, note_rest};
ghost use Rattle.tpal_asm.specs.Labels.{place_of, heads};

use crate::labels::Labels;
use crate::parts::{behind, named, register, table};
use std::alloc::Global;
use tp_value::{Items, NoMemory};
use tpal_syntax::{CarryAt, CutKind, Note, Target};

fn rename(text: &[u8]) -> Option<((u8, u8), &[u8])>
    ensures { Reads pair_of result (rename_at text.now) }
{
    let (to, rest) = register(text)?;
    let rest = behind(rest, b" -> ")?;
    let (from, rest) = register(rest)?;
    Some(((to, from), rest))
}

fn next_rename(text: &[u8]) -> Option<((u8, u8), &[u8])>
    ensures { Reads pair_of result (next_rename_at text.now) }
{
    let rest = behind(text, b", ")?;
    rename(rest)
}

// Behind a first rename more of them, as long as they come, and what stands behind them.
fn more_renames<'a>(
    renames: &mut Vec<(u8, u8)>,
    text: &'a [u8],
    most: usize,
) -> Result<&'a [u8], NoMemory>
    ensures { IfOk result (λ rest. onto renames.old.items (many most next_rename_at text.now)
        ≡ Some (renames.new.items, rest.now)) }
{
    let mut rest = text;
    for _at in 0..most {
        match next_rename(rest) {
            None => return Ok(rest),
            Some((next, others)) => {
                renames.push(next)?;
                rest = others;
            }
        }
    }
    Ok(rest)
}

// The renames, and what stands behind the brace.
#[tactic(auto, unfolding(tpal_syntax::specs::Readers::renames_at))]
fn renames<'a>(
    alloc: Global,
    text: &'a [u8],
    most: usize,
) -> Result<Option<(Items<(u8, u8)>, &'a [u8])>, NoMemory>
    ensures { IfOk result (λ read. Reads rest_of read (renames_at most text.now)) }
{
    let mut renames = Vec::new(alloc);
    if let Some(rest) = behind(text, b"}") {
        return Ok(Some((Items::new(renames), rest)));
    }
    let Some((first, rest)) = rename(text) else {
        return Ok(None);
    };
    renames.push(first)?;
    let rest = more_renames(&mut renames, rest, most)?;
    match behind(rest, b"}") {
        None => Ok(None),
        Some(rest) => Ok(Some((Items::new(renames), rest))),
    }
}

#[tactic(auto, unfolding(crate::specs::Reading::carried_rows_rest))]
fn rows(number: u8, text: &[u8]) -> Option<(CarryAt, &[u8])>
    ensures { Reads rest_of result (carried_rows_rest number text.now) }
{
    let (at, rest) = register(text)?;
    Some((CarryAt::Rows { table: number, at }, rest))
}

#[tactic(auto, unfolding(crate::specs::Reading::carried_cells_rest))]
fn cells(number: u8, text: &[u8]) -> Option<(CarryAt, &[u8])>
    ensures { Reads rest_of result (carried_cells_rest number text.now) }
{
    let rest = behind(text, b" cells ")?;
    let (row, rest) = register(rest)?;
    let rest = behind(rest, b" ")?;
    let (at, rest) = register(rest)?;
    Some((
        CarryAt::Cells {
            table: number,
            row,
            at,
        },
        rest,
    ))
}

#[tactic(auto, unfolding(crate::specs::Reading::carried_rows_rest, crate::specs::Reading::carried_cells_rest))]
fn carry(text: &[u8]) -> Option<(CarryAt, &[u8])>
    ensures { Reads rest_of result (carry_at text.now) }
{
    let (number, rest) = table(text)?;
    match behind(rest, b" rows ") {
        Some(rest) => rows(number, rest),
        None => cells(number, rest),
    }
}

fn next_carry(text: &[u8]) -> Option<(CarryAt, &[u8])>
    ensures { Reads rest_of result (next_carry_at text.now) }
{
    let rest = behind(text, b", ")?;
    carry(rest)
}

fn more_carries<'a>(
    carries: &mut Vec<CarryAt>,
    text: &'a [u8],
    most: usize,
) -> Result<&'a [u8], NoMemory>
    ensures { IfOk result (λ rest. onto carries.old.items (many most next_carry_at text.now)
        ≡ Some (carries.new.items, rest.now)) }
{
    let mut rest = text;
    for _at in 0..most {
        match next_carry(rest) {
            None => return Ok(rest),
            Some((next, others)) => {
                carries.push(next)?;
                rest = others;
            }
        }
    }
    Ok(rest)
}

#[tactic(auto, unfolding(tpal_syntax::specs::Readers::carries_at))]
fn carries<'a>(
    alloc: Global,
    text: &'a [u8],
    most: usize,
) -> Result<Option<(Items<CarryAt>, &'a [u8])>, NoMemory>
    ensures { IfOk result (λ read. Reads rest_of read (carries_at most text.now)) }
{
    let mut carries = Vec::new(alloc);
    if let Some(rest) = behind(text, b"none") {
        return Ok(Some((Items::new(carries), rest)));
    }
    let Some((first, rest)) = carry(text) else {
        return Ok(None);
    };
    carries.push(first)?;
    let rest = more_carries(&mut carries, rest, most)?;
    Ok(Some((Items::new(carries), rest)))
}

#[tactic(auto, unfolding(tpal_syntax::specs::Readers::policy_at))]
fn policy(text: &[u8]) -> Option<(bool, &[u8])>
    ensures { Reads rest_of result (policy_at text.now) }
{
    if let Some(rest) = behind(text, b"assoc; {") {
        return Some((false, rest));
    }
    let rest = behind(text, b"assoc-comm; {")?;
    Some((true, rest))
}

#[tactic(auto, unfolding(tpal_syntax::specs::Readers::kind_at))]
fn kind(text: &[u8]) -> Option<(CutKind, &[u8])>
    ensures { Reads rest_of result (kind_at text.now) }
{
    if let Some(rest) = behind(text, b"loop; carry ") {
        return Some((CutKind::Loop, rest));
    }
    let rest = behind(text, b"call; carry ")?;
    Some((CutKind::Call, rest))
}

// What stands between the renames and the carries.
#[tactic(auto, unfolding(crate::specs::Reading::cut_rest))]
fn cut<'a>(labels: &Labels, text: &'a [u8]) -> Option<((u32, CutKind), &'a [u8])>
    ensures { Reads rest_of result (cut_rest (place_of (heads labels.now.places)) text.now) }
{
    let rest = behind(text, b"; @")?;
    let (comb, rest) = named(labels, rest)?;
    let rest = behind(rest, b"; ")?;
    let (kind, rest) = kind(rest)?;
    Some(((comb, kind), rest))
}

#[tactic(auto, unfolding(crate::specs::Reading::target_rest))]
fn target<'a>(
    alloc: Global,
    labels: &Labels,
    text: &'a [u8],
    most: usize,
) -> Result<Option<(Target, &'a [u8])>, NoMemory>
    ensures { IfOk result (λ read.
        Reads rest_of read (target_rest (place_of (heads labels.now.places)) most
        text.now)) }
{
    let Some((comm, rest)) = policy(text) else {
        return Ok(None);
    };
    let Some((renames, rest)) = renames(alloc, rest, most)? else {
        return Ok(None);
    };
    let Some(((comb, kind), rest)) = cut(labels, rest) else {
        return Ok(None);
    };
    let Some((carries, rest)) = carries(alloc, rest, most)? else {
        return Ok(None);
    };
    Ok(Some((
        Target {
            comm,
            renames,
            comb,
            kind,
            carries,
        },
        rest,
    )))
}

#[tactic(auto, unfolding(crate::specs::Reading::ready_rest))]
fn ready<'a>(labels: &Labels, text: &'a [u8]) -> Option<(Note, &'a [u8])>
    ensures { Reads rest_of result (ready_rest (place_of (heads labels.now.places)) text.now) }
{
    let (handler, rest) = named(labels, text)?;
    Some((Note::Ready(handler), rest))
}

#[tactic(auto, unfolding(crate::specs::Reading::jtppt_rest))]
fn jtppt<'a>(
    alloc: Global,
    labels: &Labels,
    text: &'a [u8],
    most: usize,
) -> Result<Option<(Note, &'a [u8])>, NoMemory>
    ensures { IfOk result (λ read.
        Reads rest_of read (jtppt_rest (place_of (heads labels.now.places)) most
        text.now)) }
{
    match target(alloc, labels, text, most)? {
        None => Ok(None),
        Some((target, rest)) => Ok(Some((Note::Target(target), rest))),
    }
}

/// A note; each list in it is read up to a first item and `most` more.
#[tactic(auto, unfolding(crate::specs::Reading::note_rest))]
pub fn note<'a>(
    alloc: Global,
    labels: &Labels,
    text: &'a [u8],
    most: usize,
) -> Result<Option<(Note, &'a [u8])>, NoMemory>
    ensures { IfOk result (λ read.
        Reads rest_of read (note_rest (place_of (heads labels.now.places)) most text.now)) }
{
    if let Some(rest) = behind(text, b"plain") {
        return Ok(Some((Note::Plain, rest)));
    }
    if let Some(rest) = behind(text, b"prppt @") {
        return Ok(ready(labels, rest));
    }
    match behind(text, b"jtppt ") {
        None => Ok(None),
        Some(rest) => jtppt(alloc, labels, rest, most),
    }
}
