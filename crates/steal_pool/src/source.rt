// Where a worker puts and gets the numbers of open records.

ghost use Rattle.std.specs.Prelude.{◌≡◌, ◌<◌, [], All, MatchOption};
ghost use Rattle.crossbeam_deque.specs.Handles.{stealer_deque, worker_deque, worker_flavor};
ghost use Rattle.crossbeam_deque.specs.Handles.{worker_port};
ghost use Rattle.crossbeam_deque.specs.Tasks.{Finds};

use crate::deques::{EachEmptied, Emptied, Look, Numbers, Owner};
use crate::load::RunTerms;
use crate::other::Other;
use crossbeam_deque::Steal;
use crossbeam_deque::protocol::Protocol;
use std::marker::Brand;

/// What a look for a number came to.
#[derive(Clone, Copy, PartialEq, Eq, Debug)]
pub(crate) enum Found {
    /// The number of a record that was open.
    Number(u32),
    /// A steal lost to another taker.
    Lost,
    /// The own list, the own deque and each other deque were found empty.
    Nothing,
}

/// A worker's own deque and list, and the deques of the others, from the next worker round to the
/// one before it.
#[derive(Drop)]
pub(crate) struct Source<S: RunTerms>
where
    Numbers<S>: Protocol<u32, ()>,
{
    pub(crate) owner: Owner<S>,
    /// The numbers that the own deque refused. It has room for every record.
    pub(crate) list: Vec<u32>,
    pub(crate) others: Vec<Other<S>>,
    pub ghost fifo: { worker_flavor owner ≡ 0 },
    pub ghost small: { All (λ k. k < S.terms.records) list.items },
}

impl<S: RunTerms> Source<S> {
    ghost use Rattle.steal_pool.specs.Found.{FindsAll, HasLost, IsNumber, WhereLost};
    ghost use Rattle.steal_pool.specs.Found.{WhereNothing};
    ghost use Rattle.steal_pool.specs.Tied.{SameDeques};

    /// Puts a number where others can steal it, or into the own list where the deque refuses it or
    /// the list isn't empty. Answers whether there was room.
    pub(crate) fn put(&mut self, number: u32) -> bool
        requires { number < S.terms.records }
        ensures deques { SameDeques self.old self.new }
    {
        if self.list.is_empty() && self.owner.push_as::<Numbers<S>>(number).is_ok() {
            return true;
        }
        self.list.push(number).is_ok()
    }

    // Takes the first number of the own deque.
    fn pop<E: Emptied>(&mut self) -> Option<u32>
        requires finds { Finds S.deque (worker_port self.old.owner) tt E.empty }
        ensures told { MatchOption result E.empty (λ x. x < S.terms.records) }
        ensures own { worker_deque self.new.owner ≡ worker_deque self.old.owner }
        ensures others { self.new.others ≡ self.old.others }
    {
        self.owner.pop_as::<Look<S, E>>()
    }

    // Steals from the first other deque that isn't empty.
    fn steal<E: EachEmptied>(&mut self) -> Found
        requires finds { FindsAll S.deque E.each self.old.others.items }
        ensures number { IsNumber S.terms.records result }
        ensures nothing { WhereNothing result
            (All (λ o. E.each (stealer_deque o.thief)) self.old.others.items) }
        ensures lost { WhereLost result
            (HasLost E.each self.old.others.items self.new.others.items) }
        ensures deques { SameDeques self.old self.new }
    {
        for k in 0..self.others.len() {
            match self.others[k].steal::<Brand>() {
                Steal::Success(number) => return Found::Number(number),
                Steal::Retry => return Found::Lost,
                Steal::Empty => {}
            }
        }
        Found::Nothing
    }

    /// Takes a number from the first place that gives one: the last of the own list, the first of
    /// the own deque, and then a steal from each other deque. Nothing comes only where the list was
    /// empty and each deque was found empty, each at a moment of this call; `Lost` only where a
    /// steal of this call answered that it lost to another taker.
    pub(crate) fn find<E: EachEmptied>(&mut self) -> Found
        requires own { Finds S.deque (worker_port self.old.owner) tt
            (E.each (worker_deque self.old.owner)) }
        requires others { FindsAll S.deque E.each self.old.others.items }
        ensures number { IsNumber S.terms.records result }
        ensures list { WhereNothing result (self.old.list.items ≡ []) }
        ensures own { WhereNothing result (E.each (worker_deque self.old.owner)) }
        ensures others { WhereNothing result
            (All (λ o. E.each (stealer_deque o.thief)) self.old.others.items) }
        ensures lost { WhereLost result
            (HasLost E.each self.old.others.items self.new.others.items) }
        ensures deques { SameDeques self.old self.new }
    {
        if let Some(number) = self.list.pop() {
            return Found::Number(number);
        }
        if let Some(number) = self.pop::<Brand>() {
            return Found::Number(number);
        }
        self.steal::<E>()
    }
}
