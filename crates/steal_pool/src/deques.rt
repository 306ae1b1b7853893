// The deques through which the numbers of open records go. Each is first in, first out: only there
// does an empty steal mean that the deque was empty.

ghost use Rattle.std.specs.Prelude.{◌<◌, All};

use crate::load::RunTerms;
use crossbeam_deque::protocol::{Outcome, Protocol};
use crossbeam_deque::{Pass, Stealer, Worker};
use std::alloc::Global;
use std::marker::{Brand, PhantomData};

/// The rule of a deque of a run.
pub(crate) struct Numbers<S> {
    of: PhantomData<S>,
}

impl<S: RunTerms> Protocol<u32, ()> for Numbers<S> {
    ghost holds = { S.deque };

    ghost first = { tt };

    ghost guest = { tt };
}

impl<S: RunTerms> Outcome<u32, ()> for Numbers<S> {
    ghost then = { λ _ xs _. All (λ x. x < S.terms.records) xs };
}

/// What may be said where a deque was found empty.
pub trait Emptied {
    ghost empty: { Type 0 };
}

impl Emptied for Brand {
    ghost use Rattle.std.specs.Prelude.{⊤};

    ghost empty = { ⊤ };
}

/// What may be said where a deque was found empty, by which deque it is.
pub trait EachEmptied {
    ghost use Rattle.steal_pool.specs.Deques.{DequeName};

    ghost each: { DequeName → Type 0 };
}

impl EachEmptied for Brand {
    ghost use Rattle.std.specs.Prelude.{⊤};

    ghost each = { λ _. ⊤ };
}

/// What a look into a deque tells: a number that it took, or that the deque was empty.
pub(crate) struct Look<S, E> {
    of: PhantomData<(S, E)>,
}

impl<S: RunTerms, E: Emptied> Outcome<u32, ()> for Look<S, E> {
    ghost then = { λ _ xs _. All (λ x. x < S.terms.records) xs };

    ghost empty = { λ _. E.empty };
}

/// A worker's end of its own deque.
pub(crate) type Owner<S> = Worker<u32, Global, (), Numbers<S>>;

/// The end at which others take from a deque.
pub(crate) type Thief<S> = Stealer<u32, Global, (), Numbers<S>>;

/// What a worker needs to take from another's deque.
pub(crate) type ThiefPass = Pass<u32, (), Global>;
