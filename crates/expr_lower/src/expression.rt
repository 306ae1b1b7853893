// The code of an expression.

ghost use Rattle.std.specs.Prelude.{◌≡◌, ℕ, ◌≤◌, ◌<◌, ◌+◌, ◌^◌, ◌++◌, ◌∷◌, [], List, length};
ghost use Rattle.std.specs.Prelude.{if◌then◌else◌, IfOk, OnOk};
ghost use Rattle.tp_value.specs.declared.limits.TheConstants.{MAX_BLOCKS, MAX_EXPRESSION_HEIGHT};
ghost use Rattle.tp_value.specs.declared.limits.TheConstants.{MAX_TABLES};
ghost use Rattle.expr_lower.specs.Registers.{last_left};
ghost use Rattle.tp_value.specs.declared.Table.{Table};
ghost use Rattle.loop_rules.specs.Limits.{height};
ghost use Rattle.loop_syntax.specs.declared.Expr.{Expr};
ghost use Rattle.loop_meaning.specs.declared.value.Variable.{Variable};
ghost use Rattle.loop_meaning.specs.Expressions.{eval};
ghost use Rattle.loop_meaning.specs.InRange.{ExprInRange};
ghost use Rattle.tpal_syntax.specs.declared.blocks.Block.{Block};
ghost use Rattle.tpal_syntax.specs.declared.blocks.CodeTable.{CodeTable};
ghost use Rattle.tpal_syntax.specs.Listing.{Listing};
ghost use Rattle.tpal_machine.specs.State.{State};
ghost use Rattle.expr_lower.specs.Bodies.{can_trap, trap_block, operation, cell_read, body_of};
ghost use Rattle.expr_lower.specs.Bodies.{operand_at, operand_body, variable_read};
ghost use Rattle.expr_lower.specs.Bodies.{traps_of, trap_count, blocks_of};
ghost use Rattle.tp_value.specs.declared.TrapKind.TheVariants.{Divide, Index};
ghost use Rattle.expr_lower.specs.Fitting.{AreBlocksOf, AreInstrsOf, CanStand, IsPlaced};
ghost use Rattle.expr_lower.specs.Holding.{Holds};
ghost use Rattle.expr_lower.specs.Leaving.{ComesTo};
ghost use Rattle.expr_lower.specs.Nodes.{IsNode, operation_height, operation_traps};
ghost use Rattle.expr_lower.specs.Scopes.{IsIn, home_of, offset_of, register_of};
ghost use Rattle.expr_lower.specs.Standing.{AreAt};

use crate::cells::CellRead;
use crate::operators::{can_trap, literal, push_negation, push_operation};
use crate::registers::{BASE, Places};
use crate::scope::{Scope, home_of, offset_of, register_of, table_number};
use crate::traps::{name_of, push_trap};
use loop_syntax::{BinOp, Expr, Name};
use std::alloc::Global;
use tp_value::{Items, NoMemory, Place, TrapKind};
use tpal_syntax::{Block, Instr, Note, Term, Value};

/// Where the code of an expression leaves its value, and where its trap blocks stand.
#[derive(Clone, Copy)]
pub struct Site {
    /// The register of the value, one of those of values.
    pub to: u8,
    /// The label of the first trap block of the list to which the expression's own are appended.
    pub first: u32,
}

/// An operator over two expressions. It may be a node of no tree.
#[derive(Clone, Copy)]
pub struct Operation<'a> {
    /// The operator.
    pub operator: BinOp,
    /// Where it stands.
    pub place: Place,
    /// Its left operand.
    pub left: &'a Expr,
    /// Its right operand.
    pub right: &'a Expr,
}

// the same with the next register
fn above(at: Site) -> Site
    requires { at.to ≤ last_left + 1 }
    ensures to { result.to ≡ at.to + 1 }
    ensures first { result.first ≡ at.first }
{
    Site {
        to: at.to + 1,
        first: at.first,
    }
}

// Appends the instruction that reads a variable.
fn push_variable(body: &mut Vec<Instr>, scope: &Scope, name: &[u8], to: u8) -> Result<(), NoMemory>
    ensures { OnOk result
        (body.new.items
        ≡ body.old.items
        ++ variable_read (register_of scope.now name.now) (offset_of scope.now name.now) to) }
{
    match register_of(scope, name) {
        Some(register) => body.push(Instr::Move {
            to,
            value: Value::Reg(register),
        })?,
        None => {
            let off = offset_of(scope, name);
            body.push(Instr::Load {
                to,
                base: BASE,
                off,
            })?;
        }
    }
    Ok(())
}

// Appends the instructions that read a cell, and its trap block.
fn push_cell(
    alloc: Global,
    body: &mut Vec<Instr>,
    traps: &mut Vec<Block>,
    first: u32,
    cell: CellRead,
) -> Result<(), NoMemory>
    requires registers { cell.at.to ≤ last_left }
    requires labels { first + length traps.old.items < 2 ^ 32 }
    ensures body { OnOk result
        (body.new.items
        ≡ body.old.items
        ++ cell_read cell.entry.table cell.entry.at.to cell.entry.at.left cell.entry.at.right
        cell.entry.row.now cell.entry.col.now (first + length traps.old.items)) }
    ensures traps { OnOk result
        (traps.new.items
        ≡ traps.old.items ++ trap_block (first + length traps.old.items) Index cell.entry.place
        ∷ []) }
    ensures count { OnOk result (length traps.new.items ≡ length traps.old.items + 1) }
{
    let trap = first + traps.len() as u32;
    push_trap(alloc, traps, trap, TrapKind::Index, cell.place)?;
    cell.push_read(body, trap)
}

// An operator behind the instructions of its left operand: where it stands, the registers, the
// instructions of the right operand, and its number where it is a literal.
#[derive(Clone, Copy)]
struct Operator<'a> {
    op: BinOp,
    place: Place,
    at: Places,
    right: &'a [Instr],
    number: Option<i64>,
}

// Appends the instructions of an operator, and its trap block if it has one.
fn push_operator(
    alloc: Global,
    body: &mut Vec<Instr>,
    traps: &mut Vec<Block>,
    first: u32,
    operator: Operator,
) -> Result<(), NoMemory>
    requires registers { operator.at.to ≤ last_left }
    requires labels { first + length traps.old.items < 2 ^ 32 }
    ensures body { OnOk result
        (body.new.items
        ≡ body.old.items
        ++ operation operator.entry.op operator.entry.at.to operator.entry.at.left
        operator.entry.at.right operator.entry.right.now operator.entry.number
        (first + length traps.old.items)) }
    ensures traps { OnOk result
        (traps.new.items
        ≡ traps.old.items
        ++ (if can_trap operator.entry.op operator.entry.number
        then trap_block (first + length traps.old.items) Divide operator.entry.place ∷ []
        else [])) }
    ensures count { OnOk result
        (length traps.new.items
        ≡ length traps.old.items
        + (if can_trap operator.entry.op operator.entry.number then 1 else 0)) }
{
    let Operator {
        op,
        place,
        at,
        right,
        number,
    } = operator;
    let trap = first + traps.len() as u32;
    push_operation(body, op, at, right, number, trap)?;
    if can_trap(op, number) {
        push_trap(alloc, traps, trap, TrapKind::Divide, place)?;
    }
    Ok(())
}

// Appends the instructions of an operand, of which a variable in a register has none, and its trap
// blocks. The answer is the register where it then stands.
#[cycle(push)]
fn push_operand(
    alloc: Global,
    body: &mut Vec<Instr>,
    traps: &mut Vec<Block>,
    expr: &Expr,
    scope: &Scope,
    at: Site,
) -> Result<u8, NoMemory>
    requires few_tables { length scope.now.tables.items ≤ MAX_TABLES }
    requires registers { at.to + height expr.now ≤ MAX_EXPRESSION_HEIGHT }
    requires labels { at.first + length traps.old.items + trap_count expr.now < 2 ^ 32 }
    ensures place { IfOk result (λ place. place ≡ operand_at (home_of scope.now expr.now) at.to) }
    ensures body { OnOk result
        (body.new.items
        ≡ body.old.items
        ++ operand_body (home_of scope.now expr.now)
        (body_of scope.now (at.first + length traps.old.items) expr.now at.to)) }
    ensures traps { OnOk result
        (traps.new.items
        ≡ traps.old.items ++ traps_of (at.first + length traps.old.items) expr.now) }
    ensures count { OnOk result (length traps.new.items
        ≡ length traps.old.items + trap_count expr.now) }
    ensures literals { OnOk result (ExprInRange expr.now) }
{
    match home_of(scope, expr) {
        Some(register) => Ok(register),
        None => {
            append_expr(alloc, body, traps, expr, scope, at)?;
            Ok(at.to)
        }
    }
}

// Appends the instructions of an operation, and its trap blocks.
#[cycle(push)]
fn append_binary(
    alloc: Global,
    body: &mut Vec<Instr>,
    traps: &mut Vec<Block>,
    operation: Operation,
    scope: &Scope,
    at: Site,
) -> Result<(), NoMemory>
    requires few_tables { length scope.now.tables.items ≤ MAX_TABLES }
    requires registers { at.to + operation_height operation ≤ MAX_EXPRESSION_HEIGHT }
    requires labels { at.first + length traps.old.items + operation_traps operation < 2 ^ 32 }
    ensures body { OnOk result
        ((e : Expr) → IsNode operation.entry e
        → body.new.items
        ≡ body.old.items ++ body_of scope.now (at.first + length traps.old.items) e at.to) }
    ensures traps { OnOk result
        ((e : Expr) → IsNode operation.entry e
        → traps.new.items ≡ traps.old.items ++ traps_of (at.first + length traps.old.items) e) }
    ensures count { OnOk result
        (length traps.new.items ≡ length traps.old.items + operation_traps operation.entry) }
    ensures literals { OnOk result
        (ExprInRange operation.entry.left.now × ExprInRange operation.entry.right.now) }
{
    let Site { to, first } = at;
    let left = push_operand(alloc, body, traps, operation.left, scope, at)?;
    let mut code = Vec::new(alloc);
    let right = push_operand(alloc, &mut code, traps, operation.right, scope, above(at))?;
    let number = literal(operation.right);
    let operator = Operator {
        op: operation.operator,
        place: operation.place,
        at: Places { to, left, right },
        right: &code,
        number,
    };
    push_operator(alloc, body, traps, first, operator)?;
    Ok(())
}

// Appends the instructions that leave an expression's value in a register, and its trap blocks.
#[cycle(push)]
fn append_expr(
    alloc: Global,
    body: &mut Vec<Instr>,
    traps: &mut Vec<Block>,
    expr: &Expr,
    scope: &Scope,
    at: Site,
) -> Result<(), NoMemory>
    requires few_tables { length scope.now.tables.items ≤ MAX_TABLES }
    requires registers { at.to + height expr.now ≤ MAX_EXPRESSION_HEIGHT }
    requires labels { at.first + length traps.old.items + trap_count expr.now < 2 ^ 32 }
    ensures body { OnOk result
        (body.new.items
        ≡ body.old.items
        ++ body_of scope.now (at.first + length traps.old.items) expr.now at.to) }
    ensures traps { OnOk result
        (traps.new.items
        ≡ traps.old.items ++ traps_of (at.first + length traps.old.items) expr.now) }
    ensures count { OnOk result (length traps.new.items
        ≡ length traps.old.items + trap_count expr.now) }
    ensures literals { OnOk result (ExprInRange expr.now) }
{
    let Site { to, first } = at;
    match expr {
        Expr::Int(number, _) => body.push(Instr::Move {
            to,
            value: Value::Int(*number),
        })?,
        Expr::Var(name) => push_variable(body, scope, name.text.as_slice(), to)?,
        Expr::Cell(name, i, j) => {
            let mut row = Vec::new(alloc);
            let left = push_operand(alloc, &mut row, traps, i, scope, at)?;
            let mut col = Vec::new(alloc);
            let right = push_operand(alloc, &mut col, traps, j, scope, above(at))?;
            let cell = CellRead {
                place: name.place,
                table: table_number(scope, name.text.as_slice()),
                at: Places { to, left, right },
                row: &row,
                col: &col,
            };
            push_cell(alloc, body, traps, first, cell)?;
        }
        Expr::Rows(name) => {
            let table = table_number(scope, name.text.as_slice());
            body.push(Instr::Rows { to, table })?;
        }
        Expr::Cols(name) => {
            let table = table_number(scope, name.text.as_slice());
            body.push(Instr::Cols { to, table })?;
        }
        Expr::Neg(a, _) => {
            let left = push_operand(alloc, body, traps, a, scope, at)?;
            push_negation(body, to, left)?;
        }
        Expr::Bin(op, place, a, b) => {
            let operation = Operation {
                operator: *op,
                place: *place,
                left: a,
                right: b,
            };
            append_binary(alloc, body, traps, operation, scope, at)?;
        }
    }
    Ok(())
}

/// Appends to a body the instructions that leave an expression's value in register `at.to`, and its
/// trap blocks to those that are there. The first of all these trap blocks has the label
/// `at.first`. They are instructions of each code that has the scope's tables and these labels, and
/// blocks of each code, where the expression's places have a line and a column.
pub fn push_expr(
    alloc: Global,
    body: &mut Vec<Instr>,
    traps: &mut Vec<Block>,
    expr: &Expr,
    scope: &Scope,
    at: Site,
) -> Result<(), NoMemory>
    requires few_tables { length scope.now.tables.items ≤ MAX_TABLES }
    requires registers { at.to + height expr.now ≤ MAX_EXPRESSION_HEIGHT }
    requires labels { at.first + length traps.old.items + trap_count expr.now < 2 ^ 32 }
    ensures body { OnOk result
        (body.new.items
        ≡ body.old.items
        ++ body_of scope.now (at.first + length traps.old.items) expr.now at.to) }
    ensures traps { OnOk result
        (traps.new.items
        ≡ traps.old.items ++ traps_of (at.first + length traps.old.items) expr.now) }
    ensures count { OnOk result (length traps.new.items
        ≡ length traps.old.items + trap_count expr.now) }
    ensures literals { OnOk result (ExprInRange expr.now) }
    ensures body_fits { OnOk result
        ((tables blocks : ℕ)
        → CanStand tables scope.now expr.now
        → at.first + length traps.new.items ≤ blocks
        → AreInstrsOf tables blocks body.old.items
        → AreInstrsOf tables blocks body.new.items) }
    ensures traps_fit { OnOk result
        ((tables : List CodeTable) (all : List Block)
        → IsPlaced expr.now
        → AreBlocksOf tables all traps.old.items
        → AreBlocksOf tables all traps.new.items) }
{
    append_expr(alloc, body, traps, expr, scope, at)?;
    Ok(())
}

/// Appends to a body the instructions of an operation, and its trap blocks to those that are there,
/// as `push_expr` does with an expression.
pub fn push_binary(
    alloc: Global,
    body: &mut Vec<Instr>,
    traps: &mut Vec<Block>,
    operation: Operation,
    scope: &Scope,
    at: Site,
) -> Result<(), NoMemory>
    requires few_tables { length scope.now.tables.items ≤ MAX_TABLES }
    requires registers { at.to + operation_height operation ≤ MAX_EXPRESSION_HEIGHT }
    requires labels { at.first + length traps.old.items + operation_traps operation < 2 ^ 32 }
    ensures body { OnOk result
        ((e : Expr) → IsNode operation.entry e
        → body.new.items
        ≡ body.old.items ++ body_of scope.now (at.first + length traps.old.items) e at.to) }
    ensures traps { OnOk result
        ((e : Expr) → IsNode operation.entry e
        → traps.new.items ≡ traps.old.items ++ traps_of (at.first + length traps.old.items) e) }
    ensures count { OnOk result
        (length traps.new.items ≡ length traps.old.items + operation_traps operation.entry) }
    ensures literals { OnOk result
        (ExprInRange operation.entry.left.now × ExprInRange operation.entry.right.now) }
    ensures body_fits { OnOk result
        ((tables blocks : ℕ) (e : Expr)
        → IsNode operation.entry e
        → CanStand tables scope.now e
        → at.first + length traps.new.items ≤ blocks
        → AreInstrsOf tables blocks body.old.items
        → AreInstrsOf tables blocks body.new.items) }
    ensures traps_fit { OnOk result
        ((tables : List CodeTable) (all : List Block) (e : Expr)
        → IsNode operation.entry e
        → IsPlaced e
        → AreBlocksOf tables all traps.old.items
        → AreBlocksOf tables all traps.new.items) }
{
    append_binary(alloc, body, traps, operation, scope, at)?;
    Ok(())
}

// The blocks of an expression.
fn blocks_of(alloc: Global, expr: &Expr, scope: &Scope, to: u8) -> Result<Vec<Block>, NoMemory>
    requires few_tables { length scope.now.tables.items ≤ MAX_TABLES }
    requires registers { to + height expr.now ≤ MAX_EXPRESSION_HEIGHT }
    requires label { scope.now.next_label < MAX_BLOCKS }
    ensures blocks { IfOk result (λ blocks. blocks.items ≡ blocks_of scope.now expr.now to) }
    ensures literals { IfOk result (λ blocks. ExprInRange expr.now) }
{
    let mut body = Vec::new(alloc);
    let mut traps = Vec::new(alloc);
    let first = scope.next_label + 1;
    push_expr(
        alloc,
        &mut body,
        &mut traps,
        expr,
        scope,
        Site { to, first },
    )?;
    let behind = first + traps.len() as u32;
    let name = name_of(alloc, scope.next_label)?;
    let mut blocks = Vec::new(alloc);
    blocks.push(Block {
        name: Items::new(name),
        note: Note::Plain,
        body: Items::new(body),
        term: Term::Jump(Value::Label(behind)),
    })?;
    blocks.append(&mut traps)?;
    Ok(blocks)
}

/// The blocks of an expression, which stand from `scope.next_label` on. A task that begins at the
/// first of them, and holds the scope's variables and tables, leaves the expression's value in
/// register `to` and goes on at the label behind the last of them, or it traps as the expression
/// does. It changes no register below `to` or above 23, no cell of the stack and no table. In a
/// code that has the scope's tables, and a block behind the last of them, they are blocks of that
/// code.
pub fn lower_expr(alloc: Global, expr: &Expr, scope: &Scope, to: u8) -> Result<Vec<Block>, NoMemory>
    requires few_tables { length scope.now.tables.items ≤ MAX_TABLES }
    requires registers { to + height expr.now ≤ MAX_EXPRESSION_HEIGHT }
    requires label { scope.now.next_label < MAX_BLOCKS }
    ensures blocks { IfOk result (λ blocks. blocks.items ≡ blocks_of scope.now expr.now to) }
    ensures answer { IfOk result
        (λ blocks. (code : Listing) (heartbeat : ℕ) (vars : List Variable) (tables : List Table)
        (state : State)
        → IsIn scope.now expr.now
        → AreAt code scope.now.next_label blocks.items
        → state.block ≡ scope.now.next_label → state.at ≡ 0
        → Holds scope.now vars tables (eval vars tables expr.now).notes state
        → ComesTo code heartbeat (scope.now.next_label + length blocks.items) to
        (eval vars tables expr.now).answer state) }
    ensures fit { IfOk result (λ blocks. (tables : List CodeTable) (all : List Block)
        → CanStand (length tables) scope.now expr.now
        → scope.now.next_label + length blocks.items < length all → length all ≤ MAX_BLOCKS
        → AreBlocksOf tables all blocks.items) }
{
    let blocks = blocks_of(alloc, expr, scope, to)?;
    Ok(blocks)
}
