// The rule of a table of records, and what each kind of step tells the seat that steps. These types
// stand in proofs alone.

use crate::load::Load;
use crate::slot::Item;
use crate::views::View;
use atomic_table::{Join, Play, Split, TableRule};
use std::marker::{Brand, PhantomData};
use tpal_machine::SideName;

/// The rule. The key of the table is the child whose ending is Root's.
pub struct Law<L> {
    of: PhantomData<L>,
}

impl<L: Load> TableRule<
    Option<Item<L::Rest, L::Child, L::Side>>,
    View<L::Child, L::Ending>,
    L::Child,
> for Law<L> {
    ghost use Rattle.join_records.specs.Rule.{Kept};
    ghost use Rattle.join_records.specs.Views.{blank};

    ghost holds = { Kept record {
      has_end = L.has_end;
      keeps = L.keeps;
      owes = L.owes;
      is_ending = L.is_ending;
      rest_owes =
          L.rest_owes;
    } };

    ghost first = { blank };
}

/// A load of the finish word by a seat that is new.
pub struct SeatOpened<L> {
    of: PhantomData<L>,
}

impl<S, L: Load> Play<S, View<L::Child, L::Ending>> for SeatOpened<L> {
    ghost use Rattle.join_records.specs.Steps.{seat_opened};

    ghost then = { seat_opened L.owes };
}

/// A seat gives one of its parts to a new one.
pub struct SeatSplit;

impl<C, E> Split<View<C, E>> for SeatSplit {
    ghost use Rattle.join_records.specs.Views.{split_left, fresh};

    ghost left = { split_left };

    ghost right = { fresh };
}

/// A seat takes over all that another has.
pub struct SeatJoined;

impl<C, E> Join<View<C, E>> for SeatJoined {
    ghost use Rattle.join_records.specs.Views.{both_of, spent};

    ghost both = { both_of };

    ghost spent = { spent };
}

/// A load of any word.
pub struct Loaded;

impl<S, C, E> Play<S, View<C, E>> for Loaded {
    ghost use Rattle.join_records.specs.Steps.{loaded};

    ghost then = { loaded };
}

/// A load of the finish word by a seat that may have every part.
pub struct Settled;

impl<S, C, E> Play<S, View<C, E>> for Settled {
    ghost use Rattle.join_records.specs.Steps.{settled};

    ghost then = { settled };
}

/// A load of a met record's word by the seat that has it in hand.
pub struct FullRead;

impl<S, C, E> Play<S, View<C, E>> for FullRead {
    ghost use Rattle.join_records.specs.Steps.{full_read};

    ghost then = { full_read };
}

/// A free record is taken.
pub struct RecordTaken;

impl<S, C, E> Play<S, View<C, E>> for RecordTaken {
    ghost use Rattle.join_records.specs.Steps.{record_taken};

    ghost then = { record_taken };
}

/// The slots of a taken record's rest and child come to the seat.
pub struct PlacesTaken;

impl<R, C, D, E> Play<Option<Item<R, C, D>>, View<C, E>> for PlacesTaken {
    ghost use Rattle.join_records.specs.Steps.{places_taken};

    ghost then = { places_taken };
}

/// An ending that a call picks: no word and no slot says which ending a left side owes.
pub trait Owing<E> {
    ghost use Rattle.std.specs.Prelude.{Option};

    ghost ending: { Option E };
}

impl<E> Owing<E> for Brand {
    ghost use Rattle.std.specs.Prelude.{None};

    ghost ending = { None };
}

/// A taken record is opened, and both slots go home.
pub struct RecordOpened<J> {
    of: PhantomData<J>,
}

impl<R, C, D, E, J: Owing<E>> Play<Option<Item<R, C, D>>, View<C, E>> for RecordOpened<J> {
    ghost use Rattle.join_records.specs.Steps.{record_opened};

    ghost then = { record_opened J.ending };
}

/// An unclaimed child is claimed, and its slot comes to the seat.
pub struct RecordClaimed<L> {
    of: PhantomData<L>,
}

impl<L: Load> Play<Option<Item<L::Rest, L::Child, L::Side>>, View<L::Child, L::Ending>>
    for RecordClaimed<L> {
    ghost use Rattle.join_records.specs.Steps.{record_claimed};

    ghost then = { record_claimed L.has_end L.owes };
}

/// The child's slot goes home.
pub struct ChildGiven;

impl<R, C, D, E> Play<Option<Item<R, C, D>>, View<C, E>> for ChildGiven {
    ghost use Rattle.join_records.specs.Steps.{child_given};

    ghost then = { child_given };
}

/// The slot of the left side's outcome comes to the seat that holds the left end.
pub struct LeftTaken;

impl<R, C, D, E> Play<Option<Item<R, C, D>>, View<C, E>> for LeftTaken {
    ghost use Rattle.tpal_machine.specs.declared.ends.SideName.TheVariants.{Left};
    ghost use Rattle.join_records.specs.Steps.{side_taken};

    ghost then = { side_taken Left };
}

/// The slot of the right side's outcome comes to the seat that holds the right end.
pub struct RightTaken;

impl<R, C, D, E> Play<Option<Item<R, C, D>>, View<C, E>> for RightTaken {
    ghost use Rattle.tpal_machine.specs.declared.ends.SideName.TheVariants.{Right};
    ghost use Rattle.join_records.specs.Steps.{side_taken};

    ghost then = { side_taken Right };
}

/// The left side arrives.
pub struct LeftArrived<L> {
    of: PhantomData<L>,
}

impl<L: Load> Play<Option<Item<L::Rest, L::Child, L::Side>>, View<L::Child, L::Ending>>
    for LeftArrived<L> {
    ghost use Rattle.tpal_machine.specs.declared.ends.SideName.TheVariants.{Left};
    ghost use Rattle.join_records.specs.Steps.{side_arrived};

    ghost then = { side_arrived L.keeps L.rest_owes L.is_ending Left };
}

/// The right side arrives.
pub struct RightArrived<L> {
    of: PhantomData<L>,
}

impl<L: Load> Play<Option<Item<L::Rest, L::Child, L::Side>>, View<L::Child, L::Ending>>
    for RightArrived<L> {
    ghost use Rattle.tpal_machine.specs.declared.ends.SideName.TheVariants.{Right};
    ghost use Rattle.join_records.specs.Steps.{side_arrived};

    ghost then = { side_arrived L.keeps L.rest_owes L.is_ending Right };
}

/// The three slots of a met record go home, empty.
pub struct SlotsGiven;

impl<R, C, D, E> Play<Option<Item<R, C, D>>, View<C, E>> for SlotsGiven {
    ghost use Rattle.join_records.specs.Steps.{slots_given};

    ghost then = { slots_given };
}

/// A met record is free again.
pub struct RecordFreed;

impl<S, C, E> Play<S, View<C, E>> for RecordFreed {
    ghost use Rattle.join_records.specs.Steps.{record_freed};

    ghost then = { record_freed };
}

/// The finish word becomes 1.
pub struct FinishMade;

impl<S, C, E> Play<S, View<C, E>> for FinishMade {
    ghost use Rattle.join_records.specs.Steps.{finish_made};

    ghost then = { λ st m x m'. finish_made m m' };
}
