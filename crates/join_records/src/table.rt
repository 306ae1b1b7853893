// A table of records, the passes to it, and what its calls hand out.

ghost use Rattle.std.specs.Prelude.{◌≡◌, ◌+◌, ◌*◌, ◌≤◌};
ghost use Rattle.join_records.specs.Words.{bit};
ghost use Rattle.join_records.specs.Owed.{Only, Only-prop};
ghost use Rattle.std.specs.Coded.{Coded-set};

use crate::load::Load;
use crate::rule::Law;
use crate::slot::Item;
use crate::views::View;
use atomic_table::{Seat, Table};
use std::alloc::Global;
use std::marker::{Model, PhantomData};

/// A table of join records, which any number of threads may share.
#[derive(Drop)]
pub struct Records<L: Load> {
    pub(crate) table: Table<
        Option<Item<L::Rest, L::Child, L::Side>>,
        View<L::Child, L::Ending>,
        L::Child,
        Law<L>,
        Global,
    >,
    pub(crate) count: u32,
    pub ghost sized: { (table.shared.table_id.words ≡ count + 1)
        × (table.shared.table_id.slots ≡ 4 * count) },
}

/// A worker's seat at a table. Clauses speak of it by its `view`, which has a `View`.
#[derive(Drop)]
pub struct Pass<L: Load> {
    pub(crate) seat: Seat<Option<Item<L::Rest, L::Child, L::Side>>, View<L::Child, L::Ending>>,
    pub(crate) opens: u64,
    pub(crate) made: bool,
    /// Where the next search for a free record begins. Any number will do.
    pub(crate) next: u32,
    pub ghost counted: { (opens ≡ seat.me.0.opens) × (opens ≤ 4294967296)
        × (bit made ≡ seat.me.0.made) },
}

/// A record that was taken and isn't open. Where it is dropped the record stays in its pass's hand.
#[derive(Drop)]
pub struct Taken {
    pub(crate) number: u32,
}

/// A record that both sides have met. Where it is dropped the record stays in its pass's hand.
#[derive(Drop)]
pub struct Met {
    pub(crate) number: u32,
}

/// What an arrival found.
#[derive(Drop)]
pub enum Arrival<L: Load> {
    /// The other side is still to come.
    First,
    /// The other side had come: the rest and both outcomes of this opening.
    Second {
        rest: L::Rest,
        left: L::Side,
        right: L::Side,
        met: Met,
    },
}

/// What became of a table. Only `Records::close` makes one.
#[derive(Drop)]
pub struct Closed {
    pub(crate) opens: u64,
    pub(crate) finished: bool,
}

impl Model for Closed {
    ghost use Rattle.join_records.specs.Closing.{Tally};

    ghost Value = { Tally };

    ghost view = { λ closed. record { opens = closed.opens; finished = closed.finished } };
}

impl Closed {
    ghost use Rattle.std.specs.Prelude.{◌≡◌};

    /// How many records were opened.
    pub fn opens(&self) -> u64
        ensures { result ≡ self.now.opens }
    {
        self.opens
    }
}

/// A child, with the one ending that it owes.
#[derive(Drop)]
pub struct Owed<'a, C, E, L: Owes<C, E>> {
    pub(crate) child: &'a C,
    pub(crate) of: PhantomData<(L, E)>,
    pub ghost promise: { Only (L.owed child.now) } by { Only-prop (Coded-set E.code) (L.owed child.now) },
}

/// What a child owes, by the name of a rule.
pub trait Owes<C, E> {
    ghost owed: { C → E → Type 0 };
}

impl<L: Load> Owes<L::Child, L::Ending> for Law<L> {
    ghost owed = { L.owes };
}
