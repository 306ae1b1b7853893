// What names stand for in lists.

ghost use Rattle.std.specs.Prelude.{◌≡◌, MatchOption, Option, None, Some, map};
ghost use Rattle.std.specs.Borrow.{Bor};
ghost use Rattle.loop_rules.specs.Names.{is_in, item_of};
ghost use Rattle.loop_rules.specs.Reductions.{is_op};
ghost use Rattle.loop_check.specs.Walk.{texts_of};

use loop_syntax::Carry;
use tp_value::Op;

/// Whether a name is among these.
pub fn is_in(names: &[&[u8]], name: &[u8]) -> bool
    ensures { result ≡ is_in (texts_of names.now) name.now }
{
    for y in names {
        if *y == name {
            return true;
        }
    }
    false
}

/// Whether there is an operator, and it is this one.
pub fn is_op(op: Op, other: Option<Op>) -> bool
    ensures { result ≡ is_op op other }
{
    match other {
        None => false,
        Some(q) => op == q,
    }
}

/// The item of a carry list for that table, the first where it names the table twice.
pub fn item_of<'a>(carries: &'a [Carry], table: &[u8]) -> Option<&'a Carry>
    ensures { MatchOption result (item_of carries.now table.now ≡ None)
        (λ c. item_of carries.now table.now ≡ Some c.now) }
{
    for c in carries {
        if c.table().text.as_slice() == table {
            return Some(c);
        }
    }
    None
}
