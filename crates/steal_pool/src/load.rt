// What a pool puts into join records.

use join_records::Load;
use std::marker::{Brand, PhantomData};
use tpal_machine::{Ending, Rest, Side, Task};

/// The terms of a run, for proofs alone.
pub trait RunTerms {
    ghost use Rattle.steal_pool.specs.Deques.{DequeRule, LetsBegin, LetsNumbers};
    ghost use Rattle.steal_pool.specs.Terms.{Terms};

    /// The code, the heartbeat and the first task among them.
    ghost terms: { Terms };

    /// The rule of the workers' deques.
    ghost deque: { DequeRule };

    /// Numbers of records go in and out.
    ghost lets: { LetsNumbers terms.records deque };

    /// A deque may begin.
    ghost begins: { LetsBegin deque };
}

impl RunTerms for Brand {
    ghost use Rattle.steal_pool.specs.Deques.{AreNumbers};
    ghost use Rattle.steal_pool.specs.Terms.{no_terms};
    ghost use Rattle.steal_pool.specs.Numbers.{lets_begin, lets_numbers};

    ghost terms = { no_terms };

    ghost deque = { AreNumbers 0 };

    ghost lets = { lets_numbers 0 };

    ghost begins = { lets_begin 0 };
}

/// What lies in the records of a run: the machine's own rests, tasks and sides.
pub struct TaskLoad<S> {
    of: PhantomData<S>,
}

impl<S: RunTerms> Load for TaskLoad<S> {
    ghost use Rattle.steal_pool.specs.Facts.{HasEnd, IsEnding, Keeps, Owed, RestOwes};
    ghost use Rattle.steal_pool.specs.Facts.{ending_one, owed_one, rest_one};

    type Rest = Rest;

    type Child = Task;

    type Side = Side;

    type Ending = Ending;

    ghost has_end = { HasEnd S.terms.heartbeat };

    ghost keeps = { Keeps };

    ghost owes = { Owed S.terms.code S.terms.heartbeat };

    ghost is_ending = { IsEnding };

    ghost rest_owes = { RestOwes S.terms.code S.terms.heartbeat };

    ghost child_owes_one = { owed_one S.terms.code S.terms.heartbeat };

    ghost side_is_one = { ending_one };

    ghost rest_owes_one = { rest_one S.terms.code S.terms.heartbeat };
}
