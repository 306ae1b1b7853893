// A code that is being written.

ghost use Rattle.std.specs.Prelude.{◌≡◌, ◌+◌, ◌<◌, ◌≤◌, ◌^◌, ◌++◌, ◌∷◌, [], length, OnOk};
ghost use Rattle.tp_value.specs.declared.limits.TheConstants.{MAX_BLOCKS, MAX_EXPRESSION_HEIGHT};
ghost use Rattle.tp_value.specs.declared.limits.TheConstants.{MAX_TABLES};
ghost use Rattle.expr_lower.specs.Bodies.{body_of, traps_of, trap_count};
ghost use Rattle.expr_lower.specs.Nodes.{IsNode, operation_height, operation_traps};
ghost use Rattle.loop_rules.specs.Limits.{height};
ghost use Rattle.loop_syntax.specs.declared.Expr.{Expr};
ghost use Rattle.expr_lower.specs.Fitting.{CanBeNamed};
ghost use Rattle.block_lower.specs.declared.body.Body.{Body};
ghost use Rattle.block_lower.specs.Conforming.{IsKnown, IsProper, blocks_of};
ghost use Rattle.block_lower.specs.Lowering.{WritesValue};
ghost use Rattle.block_lower.specs.Writing as writing;
ghost use Rattle.block_lower.specs.Writing.{IsFresh, Pushes, Traps, Closes};

use expr_lower::{Operation, Scope, Site, name_of, push_binary, push_expr, push_trap};
use loop_syntax::Expr;
use std::alloc::Global;
use std::mem;
use tp_value::{Items, NoMemory, Place, TrapKind};
use tpal_syntax::{Block, Instr, Note, Term};

/// A code that is being written: its closed blocks, and an open one, which is the next of them. The
/// trap blocks of the open block stand right behind it.
#[derive(Drop)]
pub struct Output {
    /// The closed blocks, by their labels.
    pub blocks: Vec<Block>,
    /// The instructions of the open block so far.
    pub body: Vec<Instr>,
    /// The trap blocks behind the open block so far.
    pub traps: Vec<Block>,
    /// What the open block is marked as.
    pub note: Note,
}

/// No closed block, and an open one with no instruction.
pub fn no_output(alloc: Global) -> Output
    ensures blocks { result.blocks.items ≡ [] }
    ensures fresh { IsFresh result }
{
    Output {
        blocks: Vec::new(alloc),
        body: Vec::new(alloc),
        traps: Vec::new(alloc),
        note: Note::Plain,
    }
}

/// The label of the open block.
fn label(out: &Output) -> u32
    requires { writing.label out.now < 2 ^ 32 }
    ensures { result ≡ writing.label out.now }
{
    out.blocks.len() as u32
}

/// The label of the block that is opened when the open one is closed.
pub fn next_label(out: &Output) -> u32
    requires { writing.next_label out.now < 2 ^ 32 }
    ensures { result ≡ writing.next_label out.now }
{
    (out.blocks.len() + 1 + out.traps.len()) as u32
}

/// Appends an instruction to the open block.
pub fn push(out: &mut Output, instr: Instr) -> Result<(), NoMemory>
    ensures pushed { OnOk result (Pushes (instr ∷ []) out.old out.new) }
    ensures labels { OnOk result (writing.next_label out.new ≡ writing.next_label out.old) }
{
    out.body.push(instr)?;
    Ok(())
}

/// Appends the instructions that leave an expression's value in register `to`, and its trap blocks.
pub fn push_value(
    alloc: Global,
    out: &mut Output,
    scope: &Scope,
    expr: &Expr,
    to: u8,
) -> Result<(), NoMemory>
    requires few_tables { length scope.now.tables.items ≤ MAX_TABLES }
    requires registers { to + height expr.now ≤ MAX_EXPRESSION_HEIGHT }
    requires labels { writing.next_label out.old + trap_count expr.now ≤ MAX_BLOCKS }
    ensures blocks { OnOk result (out.new.blocks.items ≡ out.old.blocks.items) }
    ensures body { OnOk result
        (out.new.body.items
        ≡ out.old.body.items ++ body_of scope.now (writing.next_label out.old) expr.now to) }
    ensures traps { OnOk result
        (out.new.traps.items
        ≡ out.old.traps.items ++ traps_of (writing.next_label out.old) expr.now) }
    ensures labels { OnOk result
        (writing.next_label out.new ≡ writing.next_label out.old + trap_count expr.now) }
    ensures code { OnOk result (WritesValue scope.now expr.now to out.old out.new) }
    ensures proper { OnOk result
        ((on : Body)
        → CanBeNamed on.tables scope.now
        → IsKnown scope.now expr.now
        → writing.next_label out.new ≤ blocks_of on
        → IsProper on out.old
        → IsProper on out.new) }
{
    let first = label(out) + 1;
    let site = Site { to, first };
    push_expr(alloc, &mut out.body, &mut out.traps, expr, scope, site)?;
    Ok(())
}

/// Appends the instructions that leave the value of an operation in register `to`, and its trap
/// blocks.
pub fn push_operation(
    alloc: Global,
    out: &mut Output,
    scope: &Scope,
    operation: Operation,
    to: u8,
) -> Result<(), NoMemory>
    requires few_tables { length scope.now.tables.items ≤ MAX_TABLES }
    requires registers { to + operation_height operation ≤ MAX_EXPRESSION_HEIGHT }
    requires labels { writing.next_label out.old + operation_traps operation ≤ MAX_BLOCKS }
    ensures labels { OnOk result
        (writing.next_label out.new
        ≡ writing.next_label out.old + operation_traps operation.entry) }
    ensures code { OnOk result
        ((e : Expr) → IsNode operation.entry e → WritesValue scope.now e to out.old out.new) }
    ensures proper { OnOk result
        ((on : Body) (e : Expr)
        → IsNode operation.entry e
        → CanBeNamed on.tables scope.now
        → IsKnown scope.now e
        → writing.next_label out.new ≤ blocks_of on
        → IsProper on out.old
        → IsProper on out.new) }
{
    let first = label(out) + 1;
    let site = Site { to, first };
    push_binary(alloc, &mut out.body, &mut out.traps, operation, scope, site)?;
    Ok(())
}

/// Appends a block that traps to those behind the open block. Its label was the next one.
pub fn push_trap_block(
    alloc: Global,
    out: &mut Output,
    kind: TrapKind,
    place: Place,
) -> Result<(), NoMemory>
    requires { writing.next_label out.old ≤ MAX_BLOCKS }
    ensures traps { OnOk result (Traps kind place out.old out.new) }
    ensures labels { OnOk result (writing.next_label out.new ≡ writing.next_label out.old + 1) }
{
    let label = next_label(out);
    push_trap(alloc, &mut out.traps, label, kind, place)?;
    Ok(())
}

/// Closes the open block, with its trap blocks behind it, and opens the next one.
pub fn close(alloc: Global, out: &mut Output, term: Term) -> Result<(), NoMemory>
    requires { writing.next_label out.old ≤ MAX_BLOCKS }
    ensures closed { OnOk result (Closes term out.old out.new) }
    ensures labels { OnOk result (writing.next_label out.new ≡ writing.next_label out.old + 1) }
{
    let name = name_of(alloc, label(out))?;
    let body = mem::replace(&mut out.body, Vec::new(alloc));
    let note = mem::replace(&mut out.note, Note::Plain);
    out.blocks.push(Block {
        name: Items::new(name),
        note,
        body: Items::new(body),
        term,
    })?;
    out.blocks.append(&mut out.traps)?;
    Ok(())
}
