// Where the words of an activation stand.

ghost use Rattle.std.specs.Prelude.{◌≡◌, ◌<◌, ◌≤◌};
ghost use Rattle.tp_value.specs.declared.limits.TheConstants.{MAX_PARAMETERS};
ghost use Rattle.scene_laws.specs.Layout as layout;

use tp_value::{MAX_DECLARED_VARIABLES, MAX_PAR_NESTING};

/// The cell with the label to return to.
pub const RETURN: u16 = 0;

/// The cell with the number of levels of calls that are left.
pub const LEVELS: u16 = 2;

/// The first of the cells of `par` loops. In front of it stand the label to return to, the record
/// of the side's end of a call, and how many levels of calls are left.
const LOOPS: u16 = 3;

/// How many cells each `par` loop has, and each variable with the bound of a loop over it.
const CELLS: u16 = 2;

/// The kept value of a `both` on which its mark stands.
pub const KEPT_MARK: u16 = 0;

/// The kept value of a `both` that is its record.
pub const KEPT_RECORD: u16 = 1;

/// How many values a `both` keeps whose second call has so many arguments.
pub fn kept_by_both(count: u16) -> u16
    requires { count ≤ MAX_PARAMETERS }
    ensures { result ≡ layout.kept_by_both count }
{
    KEPT_RECORD + 1 + count
}

/// The cell of the next iteration that isn't begun, of the `par` loop that stands inside so many
/// others of its function.
pub fn cursor_cell(depth: u32) -> u16
    requires { depth < MAX_PAR_NESTING }
    ensures { result ≡ layout.cursor_cell depth }
{
    LOOPS + CELLS * depth as u16
}

/// The cell of the record of the side's end, of the `par` loop that stands inside so many others of
/// its function.
pub fn rec_cell(depth: u32) -> u16
    requires { depth < MAX_PAR_NESTING }
    ensures { result ≡ layout.rec_cell depth }
{
    cursor_cell(depth) + 1
}

/// The cell of the variable before which so many are visible, from 19 on: behind the cells of as
/// many `par` loops as there may be inside one another.
pub fn value_cell(level: usize) -> u16
    requires { level ≤ MAX_DECLARED_VARIABLES }
    ensures { result ≡ layout.value_cell level }
{
    LOOPS + CELLS * MAX_PAR_NESTING as u16 + CELLS * level as u16
}

/// The cell of the bound of the loop over that variable.
pub fn bound_cell(level: usize) -> u16
    requires { level ≤ MAX_DECLARED_VARIABLES }
    ensures { result ≡ layout.bound_cell level }
{
    value_cell(level) + 1
}
