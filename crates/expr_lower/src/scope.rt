// Where the variables and tables of an expression stand.

ghost use Rattle.std.specs.Prelude.{◌≡◌, ◌≤◌, length};
ghost use Rattle.tp_value.specs.declared.limits.TheConstants.{MAX_TABLES};
ghost use Rattle.expr_lower.specs.Scopes.{cell_in, home_of, number_in, offset_of, register_of};
ghost use Rattle.expr_lower.specs.Scopes.{table_number};

use loop_syntax::Expr;

/// What an expression may name, and the label of the first block that it may have.
#[derive(Drop)]
pub struct Scope {
    /// The variables' names, each with its cell of the activation, below 512. Where a name stands
    /// twice, the first counts.
    pub cells: Vec<(Vec<u8>, u16)>,
    /// The variables that stand in registers from r24 to r29, each with its register, whether they
    /// have a cell or not. Where a name stands twice, the first counts.
    pub regs: Vec<(Vec<u8>, u8)>,
    /// The tables' names, by their numbers. There are at most 16.
    pub tables: Vec<Vec<u8>>,
    /// The label of the next block, below 65,536.
    pub next_label: u32,
}

/// The cell of a variable in its activation, or 0 where the scope doesn't have it.
pub fn offset_of(scope: &Scope, name: &[u8]) -> u16
    ensures { result ≡ offset_of scope.now name.now }
{
    for cell in &scope.cells {
        if cell.0.as_slice() == name {
            return cell.1;
        }
    }
    0
}

/// The register of a variable, where it stands in one.
pub fn register_of(scope: &Scope, name: &[u8]) -> Option<u8>
    ensures { result ≡ register_of scope.now name.now }
{
    for place in &scope.regs {
        if place.0.as_slice() == name {
            return Some(place.1);
        }
    }
    None
}

/// The register where an expression's value stands before any instruction: that of a variable.
pub fn home_of(scope: &Scope, expr: &Expr) -> Option<u8>
    ensures { result ≡ home_of scope.now expr.now }
{
    match expr {
        Expr::Var(name) => register_of(scope, name.text.as_slice()),
        Expr::Int(_, _)
        | Expr::Cell(_, _, _)
        | Expr::Rows(_)
        | Expr::Cols(_)
        | Expr::Neg(_, _)
        | Expr::Bin(_, _, _, _) => None,
    }
}

/// The number of a table, or how many there are where the scope doesn't have it.
pub fn table_number(scope: &Scope, name: &[u8]) -> u8
    requires { length scope.now.tables.items ≤ MAX_TABLES }
    ensures { result ≡ table_number scope.now name.now }
{
    let mut number: u8 = 0;
    for table in &scope.tables {
        if table.as_slice() == name {
            return number;
        }
        number += 1;
    }
    number
}
