// The names of the tables so far.

ghost use Rattle.std.specs.Prelude.{◌≡◌, ◌||◌, ℕ, List, not, IfOk, OnOk, bytes_eq};
ghost use Rattle.table_text.specs.Reading.{has_name};

use std::alloc::AllocError;
use std::collections::BTreeSet;

/// Adds a name, and answers whether it is new. A tree, so that no choice of names makes it slow.
pub fn add_name<'a>(names: &mut BTreeSet<&'a [u8]>, name: &'a [u8]) -> Result<bool, AllocError>
    ensures is_new { IfOk result (λ is_new. is_new ≡ not (has_name names.old name.now)) }
    ensures names { OnOk result ((other : List ℕ) →
        has_name names.new other ≡ (bytes_eq name.now other || has_name names.old other)) }
{
    Ok(names.insert(name)?)
}
