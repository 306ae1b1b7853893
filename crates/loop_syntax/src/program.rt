// Declarations and whole programs.

ghost use Rattle.std.specs.Prelude.{◌≡◌, MatchOption, Option, Some, None};
ghost use Rattle.loop_syntax.specs.Naming.{table_of_decl, func_of};

use crate::expression::{Expr, Name};
use crate::statement::Stmt;

/// A declared table.
#[derive(Drop)]
pub enum TableDecl {
    /// `input t;`: the table of that name in the tables text.
    Input(Name),
    /// `table t[rows][cols];`: a table of zeros.
    Made(Name, Expr, Expr),
}

impl TableDecl {
    /// The table's name.
    pub fn name(&self) -> &Name
        ensures { result.now ≡ table_of_decl self.now }
    {
        match self {
            TableDecl::Input(t) => t,
            TableDecl::Made(t, _, _) => t,
        }
    }
}

/// A function.
#[derive(Drop)]
pub struct Func {
    /// Its name.
    pub name: Name,
    /// Its parameters in order.
    pub params: Vec<Name>,
    /// The statements before `return`.
    pub body: Vec<Stmt>,
    /// The expression after `return`.
    pub result: Expr,
}

/// A program.
#[derive(Drop)]
pub struct Program {
    /// The declared tables in order.
    pub tables: Vec<TableDecl>,
    /// The functions in order.
    pub funcs: Vec<Func>,
    /// The statements of main.
    pub main: Vec<Stmt>,
}

impl Program {
    /// The function of that name, the first where two have it.
    pub fn func(&self, name: &[u8]) -> Option<&Func>
        ensures { MatchOption result (func_of self.now.funcs.items name.now ≡ None)
            (λ f. func_of self.now.funcs.items name.now ≡ Some f.now) }
    {
        func_of(&self.funcs, name)
    }
}

fn func_of<'a>(funcs: &'a [Func], name: &[u8]) -> Option<&'a Func>
    ensures { MatchOption result (func_of funcs.now name.now ≡ None)
        (λ f. func_of funcs.now name.now ≡ Some f.now) }
{
    for f in funcs {
        if f.name.text.as_slice() == name {
            return Some(f);
        }
    }
    None
}
