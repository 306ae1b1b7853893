// The first break of a code.

ghost use Rattle.std.specs.Prelude.{◌≡◌, IfOk, length, map, not, [], ◌∷◌};
ghost use Rattle.tpal_verify.specs.declared.kinds.Kind.TheVariants.{Any};
ghost use Rattle.tpal_verify.specs.Kinds.{kind_eq};
ghost use Rattle.tpal_verify.specs.Flat.{unflat_in};
ghost use Rattle.tpal_verify.specs.Rounds.{found, join_in, all_joins};
ghost use Rattle.tpal_verify.specs.Breaks.{listed_by, listed, lists_agree, is_before, earlier};
ghost use Rattle.tpal_verify.specs.Breaks.{flat_break, list_break, walk_break, break_in};
ghost use Rattle.tpal_verify.specs.Breaks.{first_from, first_break};

use crate::agreement::{agreement, found};
use crate::flat::Ground;
use crate::kinds::{Kind, is_same};
use crate::rounds::least_traces;
use crate::trace::Trace;
use std::alloc::Global;
use tp_value::NoMemory;
use tpal_syntax::{Block, Code, Note};

/// Whether a register is a number at every join, or the side's record at every one.
fn is_agreed(join: &[Kind], r: u8) -> bool
    ensures { result ≡ not (kind_eq (found (join.now ∷ []) r) Any) }
{
    !is_same(found(join, r), Kind::Any)
}

fn renames_agree(join: &[Kind], renames: &[(u8, u8)]) -> bool
    ensures { result ≡ lists_agree (join.now ∷ []) (map (λ p. p.0) renames.now) }
{
    let mut rest = renames;
    while let Some((names, behind)) = rest.split_first() {
        if !is_agreed(join, names.0) {
            return false;
        }
        rest = behind;
    }
    true
}

fn note_agrees(join: &[Kind], note: &Note) -> bool
    ensures { result ≡ lists_agree (join.now ∷ []) (listed_by note.now) }
{
    match note {
        Note::Plain => true,
        Note::Ready(_) => true,
        Note::Target(target) => renames_agree(join, target.renames.items()),
    }
}

#[tactic(auto, using(crate::proofs::Agreeing::lists_append))]
fn blocks_agree(join: &[Kind], blocks: &[Block]) -> bool
    ensures { result ≡ lists_agree (join.now ∷ []) (listed blocks.now) }
{
    let mut rest = blocks;
    while let Some((block, behind)) = rest.split_first() {
        if !note_agrees(join, &block.note) {
            return false;
        }
        rest = behind;
    }
    true
}

/// Whether the listed registers agree at the joins of these traces.
#[tactic(auto, using(crate::proofs::Agreeing::agree_by, crate::proofs::Agreeing::none_agree))]
fn agree(alloc: Global, blocks: &[Block], traces: &[Option<Trace>]) -> Result<bool, NoMemory>
    ensures { IfOk result (λ b. b ≡ lists_agree (all_joins traces.now) (listed blocks.now)) }
{
    match agreement(alloc, traces)? {
        Some(join) => Ok(blocks_agree(join.items(), blocks)),
        None => Ok(true),
    }
}

/// A position in 32 bits. Bodies with more instructions aren't walked, for want of memory.
fn position(at: usize) -> Result<u32, NoMemory>
    ensures { IfOk result (λ p. p ≡ at) }
{
    if at <= u32::MAX as usize {
        Ok(at as u32)
    } else {
        Err(NoMemory)
    }
}

fn is_before(a: (u32, u8), b: (u32, u8)) -> bool
    ensures { result ≡ is_before a b }
{
    a.0 < b.0 || (a.0 == b.0 && a.1 < b.1)
}

/// The one at the lesser position, and at one position that of the lesser rule.
fn earlier(a: Option<(u32, u8)>, b: Option<(u32, u8)>) -> Option<(u32, u8)>
    ensures { result ≡ earlier a b }
{
    match a {
        None => b,
        Some(first) => match b {
            None => a,
            Some(second) => { if is_before(second, first) { b } else { a } }
        },
    }
}

fn flat_break(ground: &Ground, first: bool, block: &Block) -> Result<Option<(u32, u8)>, NoMemory>
    ensures { IfOk result (λ b. b ≡ flat_break (unflat_in ground.now first block.now)) }
{
    match ground.unflat_in(first, block) {
        None => Ok(None),
        Some(at) => Ok(Some((position(at)?, 1))),
    }
}

fn walk_break(trace: &Option<Trace>) -> Option<(u32, u8)>
    ensures { result ≡ walk_break trace.now }
{
    match trace {
        None => None,
        Some(trace) => trace.broken,
    }
}

fn list_break(
    agree: bool,
    block: &Block,
    trace: &Option<Trace>,
) -> Result<Option<(u32, u8)>, NoMemory>
    ensures { IfOk result (λ b. b ≡ list_break agree (length block.now.body) (join_in trace.now)) }
{
    match trace {
        None => Ok(None),
        Some(trace) => match &trace.join {
            None => Ok(None),
            Some(_) => {
                if agree {
                    return Ok(None);
                }
                Ok(Some((position(block.body.items().len())?, 6)))
            }
        },
    }
}

/// The first break of a block.
fn break_in(
    ground: &Ground,
    agree: bool,
    label: u32,
    block: &Block,
    trace: &Option<Trace>,
) -> Result<Option<(u32, u8)>, NoMemory>
    ensures { IfOk result (λ b. b ≡ break_in ground.now agree label block.now trace.now) }
{
    let flat = flat_break(ground, label == 0, block)?;
    let listed = list_break(agree, block, trace)?;
    Ok(earlier(flat, earlier(walk_break(trace), listed)))
}

/// The first break of all blocks.
fn first_from(
    ground: &Ground,
    agree: bool,
    traces: &[Option<Trace>],
) -> Result<Option<(u32, u32, u8)>, NoMemory>
    ensures { IfOk result (λ b. b ≡ first_from ground.now agree 0 ground.now.blocks traces.now) }
{
    let mut label: u32 = 0;
    let mut blocks = ground.blocks();
    let mut rest = traces;
    while let Some((block, more)) = blocks.split_first() {
        let Some((trace, behind)) = rest.split_first() else {
            return Ok(None);
        };
        if let Some((at, rule)) = break_in(ground, agree, label, block, trace)? {
            return Ok(Some((label, at, rule)));
        }
        label += 1;
        blocks = more;
        rest = behind;
    }
    Ok(None)
}

/// The block, the position and the rule of the first break of a code.
#[tactic(auto, using(crate::proofs::Labels::labels_fit))]
pub(crate) fn first_break(alloc: Global, code: &Code) -> Result<Option<(u32, u32, u8)>, NoMemory>
    ensures { IfOk result (λ b. b ≡ first_break code.now) }
{
    let ground = Ground::new(code.blocks());
    let traces = least_traces(alloc, &ground)?;
    let agree = agree(alloc, ground.blocks(), &traces)?;
    first_from(&ground, agree, &traces)
}
