// Another worker's deque.

ghost use Rattle.std.specs.Prelude.{◌≡◌, ◌⊎◌, ◌<◌};
ghost use Rattle.crossbeam_deque.specs.Handles.{IsPassOf, stealer_deque, stealer_flavor, taken};
ghost use Rattle.crossbeam_deque.specs.Steals.{MatchSteal, is_retry};
ghost use Rattle.crossbeam_deque.specs.Tasks.{Finds};

use crate::deques::{Emptied, Look, Numbers, Thief, ThiefPass};
use crate::load::RunTerms;
use crossbeam_deque::Steal;
use crossbeam_deque::protocol::Protocol;

/// Another worker's deque.
#[derive(Drop)]
pub(crate) struct Other<S: RunTerms>
where
    Numbers<S>: Protocol<u32, ()>,
{
    pub(crate) thief: Thief<S>,
    pub(crate) pass: ThiefPass,
    /// Whether the last steal from here lost to another taker.
    pub(crate) is_lost: bool,
    pub ghost fits: { IsPassOf (stealer_deque thief) pass },
    pub ghost fifo: { stealer_flavor thief ≡ 0 },
}

impl<S: RunTerms> Other<S> {
    /// Takes the first number. Another taker was faster where others have taken more than this end
    /// knew of, or the deque was empty.
    pub(crate) fn steal<E: Emptied>(&mut self) -> Steal<u32>
        requires finds { Finds S.deque self.old.pass.id tt E.empty }
        ensures told { MatchSteal result E.empty
            ((taken self.old.pass < taken self.new.pass) ⊎ E.empty)
            (λ x. x < S.terms.records) }
        ensures lost { self.new.is_lost ≡ is_retry result }
        ensures deque { stealer_deque self.new.thief ≡ stealer_deque self.old.thief }
    {
        let found = self.thief.steal_as::<Look<S, E>>(&mut self.pass);
        self.is_lost = found.is_retry();
        found
    }
}
