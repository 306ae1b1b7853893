// Statements.

ghost use Rattle.std.specs.Prelude.{◌≡◌, Option, Some, None};
ghost use Rattle.loop_syntax.specs.Naming.{operator_of, table_name};

use crate::expression::{Expr, Name};
use tp_value::{Op, Place};

/// The fixed row of a carry item of cells.
#[derive(Drop)]
pub enum RowAt {
    /// The row that a variable names.
    Var(Name),
    /// The row that a literal names, compared by value.
    Int(i64),
}

/// What a `par` carries of a table.
#[derive(Drop)]
pub enum Carry {
    /// `t[i]`: the table, and the variable of the row.
    Rows(Name, Name),
    /// `t[k][j]`: the table, the fixed row, and the variable of the column.
    Cells(Name, RowAt, Name),
}

impl Carry {
    /// The table that it is of.
    pub fn table(&self) -> &Name
        ensures { result.now ≡ table_name self.now }
    {
        match self {
            Carry::Rows(t, _) => t,
            Carry::Cells(t, _, _) => t,
        }
    }
}

/// A reduced variable of a `par`, with its operator.
#[derive(Drop)]
pub struct Reduce {
    /// The variable.
    pub target: Name,
    /// The operator.
    pub op: Op,
}

/// The operator that a reduce list gives to a name, the first where it has the name twice.
pub fn operator_of(reduces: &[Reduce], name: &[u8]) -> Option<Op>
    ensures { result ≡ operator_of reduces.now name.now }
{
    for reduce in reduces {
        if reduce.target.text.as_slice() == name {
            return Some(reduce.op);
        }
    }
    None
}

/// A function with its arguments.
#[derive(Drop)]
pub struct App {
    /// The function's name.
    pub callee: Name,
    /// The arguments in order.
    pub args: Vec<Expr>,
}

/// A parallel loop.
#[derive(Drop)]
#[cycle(statement)]
pub struct ParLoop {
    /// The word `par`.
    pub place: Place,
    /// The loop's variable.
    pub var: Name,
    /// The first number.
    pub from: Expr,
    /// The first number past the end.
    pub to: Expr,
    /// The word `carry`, or the place of `par` where there is none.
    pub carry_place: Place,
    /// The carry list.
    pub carries: Vec<Carry>,
    /// The reduce list.
    pub reduces: Vec<Reduce>,
    /// The body.
    pub body: Vec<Stmt>,
}

/// A statement.
#[derive(Drop)]
#[cycle(statement)]
pub enum Stmt {
    /// `let x = e;`.
    Let(Name, Expr),
    /// `x = e;`.
    Set(Name, Expr),
    /// `t[a][b] = e;`: the table, the row, the column and the value.
    Put(Name, Expr, Expr, Expr),
    /// `if e { .. } else { .. }`: without `else` the second block is empty.
    If(Expr, Vec<Stmt>, Vec<Stmt>),
    /// `while e { .. }`.
    While(Expr, Vec<Stmt>),
    /// `loop i in a..b { .. }`.
    Loop(Name, Expr, Expr, Vec<Stmt>),
    /// `par i in a..b .. { .. }`.
    Par(ParLoop),
    /// `fold x with e;`.
    Fold(Name, Expr),
    /// `call x = f(..);`.
    Call(Name, App),
    /// `both x = f(..), y = g(..);`.
    Both(Name, App, Name, App),
    /// `print e;`, at the word.
    Print(Place, Expr),
    /// `emit t;`, at the word.
    Emit(Place, Name),
    /// `leave x = e;`: the variable that the nearest `par` sets, and the value.
    Leave(Name, Expr),
    /// A row function's body for one row of a table. No text has it yet, and it does nothing.
    Fill {
        /// The row function's name.
        callee: Name,
        /// The table.
        table: Name,
        /// The variable that names the row.
        row: Name,
        /// The arguments in order.
        args: Vec<Expr>,
    },
}
