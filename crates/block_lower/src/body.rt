// What the code of main's statements, or of a function's, stands on.

ghost use Rattle.std.specs.Prelude.{◌≡◌, ◌≤◌, ◌+◌, Some};
ghost use Rattle.tp_value.specs.declared.limits.TheConstants.{MAX_ACTIVATION_CELLS, MAX_PARAMETERS};
ghost use Rattle.block_lower.specs.Bodies.{entries, HasRoomFor};
ghost use Rattle.scene_laws.specs.Layout as layout;
ghost use Rattle.scene_laws.specs.Layout.{Entry, entry_of};

use crate::layout::value_cell;

/// A function that may be called.
#[derive(Drop)]
pub struct Callee {
    /// Its name.
    pub name: Vec<u8>,
    /// The label of its first block.
    pub label: u32,
    /// How many parameters it has.
    pub parameters: usize,
    /// How many cells its activation has, at most 512.
    pub size: u16,
}

/// What the code of main's statements, or of a function's, stands on.
#[derive(Drop)]
pub struct Body {
    /// The functions of the program.
    pub callees: Vec<Callee>,
    /// How many variables the activation has room for.
    pub most: usize,
    /// How many cells the activation has.
    pub size: u16,
    /// Whether no point of promotion can be reached in a call.
    pub quiet_calls: bool,
    /// The block to which each beat goes: the last one.
    pub dispatch: u32,
    /// How many tables the program has.
    pub tables: usize,
}

/// Where a call goes.
#[derive(Clone, Copy)]
pub struct Target {
    /// The label of the function's first block.
    pub label: u32,
    /// How many cells its activation has.
    pub size: u16,
}

/// Two calls.
#[derive(Clone, Copy)]
pub struct Pair {
    /// The cell to which the first one's value goes.
    pub cell: u16,
    /// Where the first one goes.
    pub first: Target,
    /// Where the second one goes.
    pub second: Target,
    /// How many arguments the second one has.
    pub count: u16,
}

/// Where a call of the function of that name goes. Where there is none, it is no function's.
pub fn target_of(on: &Body, name: &[u8]) -> Target
    ensures label { (entry : Entry)
        → entry_of (entries on.now.callees.items) name.now ≡ Some entry
        → result.label ≡ entry.label }
    ensures size { (entry : Entry)
        → entry_of (entries on.now.callees.items) name.now ≡ Some entry
        → result.size ≡ entry.size }
{
    for callee in &on.callees {
        if callee.name.as_slice() == name {
            return Target {
                label: callee.label,
                size: callee.size,
            };
        }
    }
    Target { label: 0, size: 0 }
}

/// The cell of a value that is kept behind the variables.
pub fn kept_cell(on: &Body, number: u16) -> u16
    requires { HasRoomFor on.now (number + 1) }
    ensures { result ≡ layout.value_cell on.now.most + number }
{
    value_cell(on.most) + number
}

/// The cell of a parameter in the activation that begins behind this one.
pub fn parameter_cell(on: &Body, number: u16) -> u16
    requires size { on.now.size ≤ MAX_ACTIVATION_CELLS }
    requires few { number ≤ MAX_PARAMETERS }
    ensures { result ≡ on.now.size + layout.value_cell number }
{
    on.size + value_cell(number as usize)
}
