// What is kept while the two sides of a fork run.

use crate::ends::{End, Goal};
use slices::Held;
use stack_marks::Stack;
use std::marker::Model;

/// What a rest keeps.
#[derive(Drop)]
pub(crate) struct Kept {
    pub(crate) stack: Stack,
    pub(crate) tables: Vec<Held>,
    pub(crate) output: Vec<u8>,
    pub(crate) goal: Goal,
    pub(crate) base: u64,
    pub(crate) rec: u32,
    pub(crate) target: u32,
    pub(crate) limit: u64,
    pub(crate) made: Vec<u8>,
}

/// What a forked task leaves behind, from which the task behind the join is made.
#[derive(Drop)]
pub struct Rest {
    pub(crate) kept: Kept,
}

impl Model for Rest {
    ghost use Rattle.std.specs.Coded.{codes};
    ghost use Rattle.slices.specs.Holding.{holding_code};
    ghost use Rattle.tpal_machine.specs.RestState.{RestState};

    ghost Value = { RestState };

    ghost coded = { Prim.hlevel (codes, holding_code) };

    ghost use Rattle.tpal_machine.specs.Seen.{rest_state, IsRestSound};

    ghost view = { λ rest. rest_state rest.kept };

    ghost invariant = { λ rest. IsRestSound rest.kept };
}

impl Rest {
    ghost use Rattle.std.specs.Prelude.{◌≡◌};
    ghost use Rattle.tpal_machine.specs.RestState.{end_of};

    /// Where the task behind the join ends.
    pub fn end(&self) -> End
        ensures { result ≡ end_of self.now.goal }
    {
        match self.kept.goal {
            Goal::Root => End::Root,
            Goal::At {
                rec,
                side,
                target: _,
            } => End::At { rec, side },
        }
    }
}
