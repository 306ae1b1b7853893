// The variables that are visible while statements are lowered.

ghost use Rattle.std.specs.Prelude.{◌≡◌, ℕ, ◌<◌, ◌≤◌, ◌+◌, ◌++◌, ◌∷◌, [], take, length, OnOk};
ghost use Rattle.tp_value.specs.declared.limits.TheConstants.{MAX_DECLARED_VARIABLES};
ghost use Rattle.expr_lower.specs.Fitting.{CanBeNamed};
ghost use Rattle.scene_laws.specs.Names.{SeesAfter};

use crate::layout::value_cell;
use expr_lower::Scope;
use std::alloc::Global;
use tp_value::NoMemory;

/// Makes a variable visible, in the cell of its level.
pub fn declare(alloc: Global, scope: &mut Scope, name: &[u8]) -> Result<(), NoMemory>
    requires { length scope.old.cells.items < MAX_DECLARED_VARIABLES }
    ensures sees { OnOk result (SeesAfter (λ names. names ++ name.now ∷ []) scope.old scope.new) }
    ensures cells { OnOk result (length scope.new.cells.items ≡ length scope.old.cells.items + 1) }
    ensures tables { OnOk result (scope.new.tables ≡ scope.old.tables) }
    ensures regs { OnOk result (scope.new.regs ≡ scope.old.regs) }
    ensures named { OnOk result
        ((tables : ℕ) → CanBeNamed tables scope.old → CanBeNamed tables scope.new) }
{
    let cell = value_cell(scope.cells.len());
    let copy = Vec::from_slice(alloc, name)?;
    scope.cells.push((copy, cell))?;
    Ok(())
}

/// Leaves the first variables visible.
pub fn leave(scope: &mut Scope, n: usize)
    ensures sees { SeesAfter (take n) scope.old scope.new }
    ensures cells { length scope.new.cells.items ≤ n }
    ensures tables { scope.new.tables ≡ scope.old.tables }
    ensures regs { scope.new.regs ≡ scope.old.regs }
    ensures named { (tables : ℕ) → CanBeNamed tables scope.old → CanBeNamed tables scope.new }
{
    scope.cells.truncate(n);
}
