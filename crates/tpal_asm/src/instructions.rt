// Instructions, each read from the front of a text.

ghost use Rattle.std.specs.Prelude.{◌≡◌, codes, Option, Some, None};
ghost use Rattle.tpal_asm.specs.Reading.{Reads, rest_of, if_jump_rest, store_rest, salloc_rest};
ghost use Rattle.tpal_asm.specs.Reading.{sfree_rest, prmpush_rest, prmpop_rest, prmempty_rest};
ghost use Rattle.tpal_asm.specs.Reading.{prmsplit_rest, fork_rest, put_rest, make_rest, trap_rest};
ghost use Rattle.tpal_asm.specs.Reading.{print_rest, emit_rest, load_rest, jralloc_rest};
ghost use Rattle.tpal_asm.specs.Reading.{fetch_rest, rows_rest, cols_rest, calc_rest, source_rest};
ghost use Rattle.tpal_asm.specs.Reading.{move_rest, assigned_rest, changed_rest, stack_rest};
ghost use Rattle.tpal_asm.specs.Reading.{table_rest, other_rest, instr_rest, jump_rest, join_rest};
ghost use Rattle.tpal_asm.specs.Reading.{leave_rest, left_rest, term_rest};
ghost use Rattle.tpal_asm.specs.Labels.{place_of, heads};

use crate::labels::Labels;
use crate::parts::{
    alu, behind, cell, label, place, register, register_number, size, table, trap_kind, value,
};
use tpal_syntax::{Instr, Term, Value, Version};

/// An instruction.
#[tactic(auto, unfolding(crate::specs::Reading::instr_rest, crate::specs::Reading::stack_rest))]
pub fn instr<'a>(labels: &Labels, text: &'a [u8]) -> Option<(Instr, &'a [u8])>
    ensures { Reads rest_of result (instr_rest (place_of (heads labels.now.places)) text.now) }
{
    if let Some(rest) = behind(text, b"r") {
        return changed(labels, rest);
    }
    if let Some(rest) = behind(text, b"if-jump ") {
        return if_jump(labels, rest);
    }
    if let Some(_rest) = behind(text, b"mem[") {
        return store(labels, text);
    }
    of_stack(labels, text)
}

#[tactic(auto, unfolding(crate::specs::Reading::changed_rest))]
fn changed<'a>(labels: &Labels, text: &'a [u8]) -> Option<(Instr, &'a [u8])>
    ensures { Reads rest_of result (changed_rest (place_of (heads labels.now.places)) text.now) }
{
    let (to, rest) = register_number(text)?;
    let rest = behind(rest, b" := ")?;
    assigned(labels, to, rest)
}

#[tactic(auto, unfolding(crate::specs::Reading::assigned_rest))]
fn assigned<'a>(labels: &Labels, to: u8, text: &'a [u8]) -> Option<(Instr, &'a [u8])>
    ensures { Reads rest_of result (assigned_rest (place_of (heads labels.now.places)) to
        text.now) }
{
    if let Some(_rest) = behind(text, b"mem[") {
        return load(to, text);
    }
    if let Some(rest) = behind(text, b"jralloc ") {
        return jralloc(labels, to, rest);
    }
    if let Some(rest) = behind(text, b"fetch ") {
        return fetch(to, rest);
    }
    if let Some(rest) = behind(text, b"rows ") {
        return rows(to, rest);
    }
    if let Some(rest) = behind(text, b"cols ") {
        return cols(to, rest);
    }
    moved(labels, to, text)
}

#[tactic(auto, unfolding(crate::specs::Reading::move_rest))]
fn moved<'a>(labels: &Labels, to: u8, text: &'a [u8]) -> Option<(Instr, &'a [u8])>
    ensures { Reads rest_of result (move_rest (place_of (heads labels.now.places)) to text.now) }
{
    let (value, rest) = value(labels, text)?;
    source(labels, to, value, rest)
}

#[tactic(auto, unfolding(crate::specs::Reading::calc_rest))]
fn source<'a>(labels: &Labels, to: u8, value: Value, text: &'a [u8]) -> Option<(Instr, &'a [u8])>
    ensures { Reads rest_of result (source_rest (place_of (heads labels.now.places)) to
        (value, text.now)) }
{
    match value {
        Value::Reg(left) => match behind(text, b" ") {
            Some(rest) => calc(labels, to, left, rest),
            None => Some((Instr::Move { to, value }, text)),
        },
        Value::Int(_) => Some((Instr::Move { to, value }, text)),
        Value::Label(_) => Some((Instr::Move { to, value }, text)),
        Value::Nil => Some((Instr::Move { to, value }, text)),
    }
}

#[tactic(auto, unfolding(crate::specs::Reading::calc_rest))]
fn calc<'a>(labels: &Labels, to: u8, left: u8, text: &'a [u8]) -> Option<(Instr, &'a [u8])>
    ensures { Reads rest_of result (calc_rest (place_of (heads labels.now.places)) to left
        text.now) }
{
    let (alu, rest) = alu(text)?;
    let (right, rest) = value(labels, rest)?;
    Some((
        Instr::Calc {
            to,
            left,
            alu,
            right,
        },
        rest,
    ))
}

#[tactic(auto, unfolding(crate::specs::Reading::stack_rest))]
fn of_stack<'a>(labels: &Labels, text: &'a [u8]) -> Option<(Instr, &'a [u8])>
    ensures { Reads rest_of result (stack_rest (place_of (heads labels.now.places)) text.now
        (other_rest (place_of (heads labels.now.places)) text.now)) }
{
    if let Some(rest) = behind(text, b"salloc ") {
        return salloc(rest);
    }
    if let Some(rest) = behind(text, b"sfree ") {
        return sfree(rest);
    }
    if let Some(rest) = behind(text, b"prmpush ") {
        return prmpush(labels, rest);
    }
    if let Some(rest) = behind(text, b"prmpop ") {
        return prmpop(rest);
    }
    if let Some(rest) = behind(text, b"prmdrop") {
        return Some((Instr::PrmDrop, rest));
    }
    if let Some(rest) = behind(text, b"prmempty ") {
        return prmempty(rest);
    }
    if let Some(rest) = behind(text, b"prmsplit ") {
        return prmsplit(rest);
    }
    of_others(labels, text)
}

#[tactic(auto, unfolding(crate::specs::Reading::other_rest))]
fn of_others<'a>(labels: &Labels, text: &'a [u8]) -> Option<(Instr, &'a [u8])>
    ensures { Reads rest_of result (other_rest (place_of (heads labels.now.places)) text.now) }
{
    if let Some(rest) = behind(text, b"fork ") {
        return fork(labels, rest);
    }
    of_tables(text)
}

#[tactic(auto, unfolding(crate::specs::Reading::table_rest))]
fn of_tables(text: &[u8]) -> Option<(Instr, &[u8])>
    ensures { Reads rest_of result (table_rest text.now) }
{
    if let Some(rest) = behind(text, b"put ") {
        return put(rest);
    }
    if let Some(rest) = behind(text, b"make ") {
        return make(rest);
    }
    if let Some(rest) = behind(text, b"tick") {
        return Some((Instr::Tick, rest));
    }
    if let Some(rest) = behind(text, b"trap ") {
        return trap(rest);
    }
    if let Some(rest) = behind(text, b"print ") {
        return print(rest);
    }
    if let Some(rest) = behind(text, b"emit ") {
        return emit(rest);
    }
    None
}

#[tactic(auto, unfolding(crate::specs::Reading::if_jump_rest))]
fn if_jump<'a>(labels: &Labels, text: &'a [u8]) -> Option<(Instr, &'a [u8])>
    ensures { Reads rest_of result (if_jump_rest (place_of (heads labels.now.places)) text.now) }
{
    let (r, rest) = register(text)?;
    let rest = behind(rest, b", ")?;
    let (l, rest) = label(labels, rest)?;
    Some((Instr::IfJump { test: r, label: l }, rest))
}

#[tactic(auto, unfolding(crate::specs::Reading::store_rest))]
fn store<'a>(labels: &Labels, text: &'a [u8]) -> Option<(Instr, &'a [u8])>
    ensures { Reads rest_of result (store_rest (place_of (heads labels.now.places)) text.now) }
{
    let (c, rest) = cell(text)?;
    let rest = behind(rest, b" := ")?;
    let (v, rest) = value(labels, rest)?;
    Some((
        Instr::Store {
            base: c.0,
            off: c.1,
            value: v,
        },
        rest,
    ))
}

#[tactic(auto, unfolding(crate::specs::Reading::salloc_rest))]
fn salloc(text: &[u8]) -> Option<(Instr, &[u8])>
    ensures { Reads rest_of result (salloc_rest text.now) }
{
    let (n, rest) = size(text)?;
    Some((Instr::Salloc(n), rest))
}

#[tactic(auto, unfolding(crate::specs::Reading::sfree_rest))]
fn sfree(text: &[u8]) -> Option<(Instr, &[u8])>
    ensures { Reads rest_of result (sfree_rest text.now) }
{
    let (n, rest) = size(text)?;
    Some((Instr::Sfree(n), rest))
}

#[tactic(auto, unfolding(crate::specs::Reading::prmpush_rest))]
fn prmpush<'a>(labels: &Labels, text: &'a [u8]) -> Option<(Instr, &'a [u8])>
    ensures { Reads rest_of result (prmpush_rest (place_of (heads labels.now.places)) text.now) }
{
    let (c, rest) = cell(text)?;
    let rest = behind(rest, b", ")?;
    let (n, rest) = size(rest)?;
    let rest = behind(rest, b", ")?;
    let (l, rest) = label(labels, rest)?;
    Some((
        Instr::PrmPush {
            base: c.0,
            off: c.1,
            cells: n,
            split: l,
        },
        rest,
    ))
}

#[tactic(auto, unfolding(crate::specs::Reading::prmpop_rest))]
fn prmpop(text: &[u8]) -> Option<(Instr, &[u8])>
    ensures { Reads rest_of result (prmpop_rest text.now) }
{
    let (c, rest) = cell(text)?;
    Some((
        Instr::PrmPop {
            base: c.0,
            off: c.1,
        },
        rest,
    ))
}

#[tactic(auto, unfolding(crate::specs::Reading::prmempty_rest))]
fn prmempty(text: &[u8]) -> Option<(Instr, &[u8])>
    ensures { Reads rest_of result (prmempty_rest text.now) }
{
    let (r, rest) = register(text)?;
    Some((Instr::PrmEmpty(r), rest))
}

#[tactic(auto, unfolding(crate::specs::Reading::prmsplit_rest))]
fn prmsplit(text: &[u8]) -> Option<(Instr, &[u8])>
    ensures { Reads rest_of result (prmsplit_rest text.now) }
{
    let (a, rest) = register(text)?;
    let rest = behind(rest, b", ")?;
    let (b, rest) = register(rest)?;
    Some((Instr::PrmSplit { base: a, split: b }, rest))
}

#[tactic(auto, unfolding(crate::specs::Reading::fork_rest))]
fn fork<'a>(labels: &Labels, text: &'a [u8]) -> Option<(Instr, &'a [u8])>
    ensures { Reads rest_of result (fork_rest (place_of (heads labels.now.places)) text.now) }
{
    let (r, rest) = register(text)?;
    let rest = behind(rest, b", ")?;
    let (l, rest) = label(labels, rest)?;
    Some((Instr::Fork { rec: r, child: l }, rest))
}

#[tactic(auto, unfolding(crate::specs::Reading::put_rest))]
fn put(text: &[u8]) -> Option<(Instr, &[u8])>
    ensures { Reads rest_of result (put_rest text.now) }
{
    let (t, rest) = table(text)?;
    let rest = behind(rest, b", ")?;
    let (row, rest) = register(rest)?;
    let rest = behind(rest, b", ")?;
    let (col, rest) = register(rest)?;
    let rest = behind(rest, b", ")?;
    let (v, rest) = register(rest)?;
    Some((
        Instr::Put {
            table: t,
            row,
            col,
            value: v,
        },
        rest,
    ))
}

#[tactic(auto, unfolding(crate::specs::Reading::make_rest))]
fn make(text: &[u8]) -> Option<(Instr, &[u8])>
    ensures { Reads rest_of result (make_rest text.now) }
{
    let (t, rest) = table(text)?;
    let rest = behind(rest, b", ")?;
    let (row, rest) = register(rest)?;
    let rest = behind(rest, b", ")?;
    let (col, rest) = register(rest)?;
    let rest = behind(rest, b", ")?;
    let (p, rest) = place(rest)?;
    Some((
        Instr::Make {
            table: t,
            rows: row,
            cols: col,
            place: p,
        },
        rest,
    ))
}

#[tactic(auto, unfolding(crate::specs::Reading::trap_rest))]
fn trap(text: &[u8]) -> Option<(Instr, &[u8])>
    ensures { Reads rest_of result (trap_rest text.now) }
{
    let (k, rest) = trap_kind(text)?;
    let (p, rest) = place(rest)?;
    Some((Instr::Trap { kind: k, place: p }, rest))
}

#[tactic(auto, unfolding(crate::specs::Reading::print_rest))]
fn print(text: &[u8]) -> Option<(Instr, &[u8])>
    ensures { Reads rest_of result (print_rest text.now) }
{
    let (r, rest) = register(text)?;
    Some((Instr::Print(r), rest))
}

#[tactic(auto, unfolding(crate::specs::Reading::emit_rest))]
fn emit(text: &[u8]) -> Option<(Instr, &[u8])>
    ensures { Reads rest_of result (emit_rest text.now) }
{
    let (t, rest) = table(text)?;
    Some((Instr::Emit(t), rest))
}

#[tactic(auto, unfolding(crate::specs::Reading::load_rest))]
fn load(to: u8, text: &[u8]) -> Option<(Instr, &[u8])>
    ensures { Reads rest_of result (load_rest to text.now) }
{
    let (c, rest) = cell(text)?;
    Some((
        Instr::Load {
            to,
            base: c.0,
            off: c.1,
        },
        rest,
    ))
}

#[tactic(auto, unfolding(crate::specs::Reading::jralloc_rest))]
fn jralloc<'a>(labels: &Labels, to: u8, text: &'a [u8]) -> Option<(Instr, &'a [u8])>
    ensures { Reads rest_of result (jralloc_rest (place_of (heads labels.now.places)) to text.now) }
{
    let (l, rest) = label(labels, text)?;
    Some((Instr::JrAlloc { to, target: l }, rest))
}

#[tactic(auto, unfolding(crate::specs::Reading::fetch_rest))]
fn fetch(to: u8, text: &[u8]) -> Option<(Instr, &[u8])>
    ensures { Reads rest_of result (fetch_rest to text.now) }
{
    let (t, rest) = table(text)?;
    let rest = behind(rest, b", ")?;
    let (row, rest) = register(rest)?;
    let rest = behind(rest, b", ")?;
    let (col, rest) = register(rest)?;
    Some((
        Instr::Fetch {
            to,
            table: t,
            row,
            col,
        },
        rest,
    ))
}

#[tactic(auto, unfolding(crate::specs::Reading::rows_rest))]
fn rows(to: u8, text: &[u8]) -> Option<(Instr, &[u8])>
    ensures { Reads rest_of result (rows_rest to text.now) }
{
    let (t, rest) = table(text)?;
    Some((Instr::Rows { to, table: t }, rest))
}

#[tactic(auto, unfolding(crate::specs::Reading::cols_rest))]
fn cols(to: u8, text: &[u8]) -> Option<(Instr, &[u8])>
    ensures { Reads rest_of result (cols_rest to text.now) }
{
    let (t, rest) = table(text)?;
    Some((Instr::Cols { to, table: t }, rest))
}

/// The end of a block.
#[tactic(auto, unfolding(crate::specs::Reading::term_rest))]
pub fn term<'a>(labels: &Labels, text: &'a [u8]) -> Option<(Term, &'a [u8])>
    ensures { Reads rest_of result
        (term_rest labels.now.version (place_of (heads labels.now.places)) text.now) }
{
    if let Some(rest) = behind(text, b"jump ") {
        return jump(labels, rest);
    }
    if let Some(rest) = behind(text, b"halt") {
        return Some((Term::Halt, rest));
    }
    if let Some(rest) = behind(text, b"join ") {
        return join(rest);
    }
    left(labels.version, text)
}

#[tactic(auto, unfolding(crate::specs::Reading::left_rest))]
fn left(version: Version, text: &[u8]) -> Option<(Term, &[u8])>
    ensures { Reads rest_of result (left_rest version text.now) }
{
    match version {
        Version::One => None,
        Version::Two => leave(behind(text, b"leave ")?),
    }
}

#[tactic(auto, unfolding(crate::specs::Reading::leave_rest))]
fn leave(text: &[u8]) -> Option<(Term, &[u8])>
    ensures { Reads rest_of result (leave_rest text.now) }
{
    let (rec, rest) = register(text)?;
    let rest = behind(rest, b", ")?;
    let (value, rest) = register(rest)?;
    Some((Term::Leave { rec, value }, rest))
}

#[tactic(auto, unfolding(crate::specs::Reading::jump_rest))]
fn jump<'a>(labels: &Labels, text: &'a [u8]) -> Option<(Term, &'a [u8])>
    ensures { Reads rest_of result (jump_rest (place_of (heads labels.now.places)) text.now) }
{
    let (to, rest) = value(labels, text)?;
    Some((Term::Jump(to), rest))
}

#[tactic(auto, unfolding(crate::specs::Reading::join_rest))]
fn join(text: &[u8]) -> Option<(Term, &[u8])>
    ensures { Reads rest_of result (join_rest text.now) }
{
    let (record, rest) = register(text)?;
    Some((Term::Join(record), rest))
}
