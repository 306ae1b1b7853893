// What stands round a statement in its function.

ghost use Rattle.std.specs.Prelude.{◌≡◌, []};

use loop_syntax::Reduce;

/// What stands round a statement in its function.
#[derive(Clone, Copy)]
pub struct Round<'a> {
    /// What the nearest `par` reduces.
    pub reduces: &'a [Reduce],
    /// How many `par` loops stand round it.
    pub depth: u32,
}

/// Nothing stands round the statements of main, or of a function.
pub fn outermost() -> Round<'static>
    ensures reduces { result.reduces.now ≡ [] }
    ensures depth { result.depth ≡ 0 }
{
    Round {
        reduces: &[],
        depth: 0,
    }
}
