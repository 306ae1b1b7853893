// Where the blocks of a site stand: from its label on, one after another. The first one cuts.

ghost use Rattle.std.specs.Prelude.{◌≡◌, ◌+◌, ◌<◌};
ghost use Rattle.std.specs.List.{list_any};
ghost use Rattle.tp_value.specs.declared.limits.TheConstants.{MAX_BLOCKS};
ghost use Rattle.handler_gen.specs.Sites as sites;
ghost use Rattle.handler_gen.specs.Sites.{is_of_cells};

use tpal_syntax::{CarryAt, LoopSite};

/// The label of the block where a handler goes back to the interrupted one.
pub fn back_label(label: u32) -> u32
    requires { label < MAX_BLOCKS + 2 }
    ensures { result ≡ sites.back_label label }
{
    label + 1
}

/// The label of the block where the child begins.
pub fn child_label(label: u32) -> u32
    requires { label < MAX_BLOCKS + 2 }
    ensures { result ≡ sites.child_label label }
{
    label + 2
}

/// The label of the join target.
pub fn target_label(label: u32) -> u32
    requires { label < MAX_BLOCKS + 2 }
    ensures { result ≡ sites.target_label label }
{
    label + 3
}

/// The label of the block that combines both sides.
pub fn comb_label(label: u32) -> u32
    requires { label < MAX_BLOCKS + 2 }
    ensures { result ≡ sites.comb_label label }
{
    label + 4
}

/// The label of the block where a side of a loop ends. It is entered with the side's record in r24.
pub fn side_label(label: u32) -> u32
    requires { label < MAX_BLOCKS + 2 }
    ensures { result ≡ sites.side_label label }
{
    label + 5
}

/// The label of the block to which the second function returns in the child of a pair of calls.
pub fn child_end_label(label: u32) -> u32
    requires { label < MAX_BLOCKS + 2 }
    ensures { result ≡ sites.child_end_label label }
{
    label + 5
}

/// The label of the block to which the first function returns in the left of a pair of calls that
/// was cut.
pub fn left_end_label(label: u32) -> u32
    requires { label < MAX_BLOCKS + 2 }
    ensures { result ≡ sites.left_end_label label }
{
    label + 6
}

/// The label at which the code round a loop begins an iteration that it doesn't enter by a
/// promotion point: that of the loop, or the child's first one.
pub fn first_label(label: u32) -> u32
    requires { label < MAX_BLOCKS + 2 }
    ensures { result ≡ sites.first_label label }
{
    label + 6
}

/// The label at which the code round a loop goes on where no iteration is left: behind the last
/// one, and behind a join.
pub fn over_label(label: u32) -> u32
    requires { label < MAX_BLOCKS + 2 }
    ensures { result ≡ sites.over_label label }
{
    label + 7
}

/// The label at which the code round a loop goes on where a cut left no iteration to the left,
/// whose mark is gone. r30 has the label of the block that the beat interrupted.
pub fn none_label(label: u32) -> u32
    requires { label < MAX_BLOCKS + 2 }
    ensures { result ≡ sites.none_label label }
{
    label + 8
}

/// The label at which the code round a loop loads the registers of its carries' rows, from the
/// activation at the position in r28, and goes on at the label of the site. It stands there only
/// where a carry has a row.
pub fn prep_label(label: u32) -> u32
    requires { label < MAX_BLOCKS + 2 }
    ensures { result ≡ sites.prep_label label }
{
    label + 9
}

/// The label at which the code round a pair of calls goes on behind the join of both: the value of
/// the first call is in r0, that of the second one in r1.
pub fn joined_label(label: u32) -> u32
    requires { label < MAX_BLOCKS + 2 }
    ensures { result ≡ sites.joined_label label }
{
    label + 7
}

// Whether a carry is of the cells of one row.
fn is_of_cells(carry: CarryAt) -> bool
    ensures { result ≡ is_of_cells carry }
{
    match carry {
        CarryAt::Rows { table: _, at: _ } => false,
        CarryAt::Cells {
            table: _,
            row: _,
            at: _,
        } => true,
    }
}

/// Whether one of these carries is of the cells of one row.
pub fn has_cells(carries: &[CarryAt]) -> bool
    ensures { result ≡ list_any is_of_cells carries.now }
{
    for carry in carries {
        if is_of_cells(*carry) {
            return true;
        }
    }
    false
}

/// The label of a loop's mark: that of the site, or where a carry has a row, that of the block that
/// loads its register before.
pub fn split_label(site: &LoopSite) -> u32
    requires { site.now.label < MAX_BLOCKS + 2 }
    ensures { result ≡ sites.split_label site.now }
{
    if has_cells(site.carries.items()) {
        prep_label(site.label)
    } else {
        site.label
    }
}
