// The arrival of a side at its record.

ghost use Rattle.std.specs.Prelude.{◌≡◌, ◌≢◌, ◌⊎◌, ℕ, ◌+◌, ◌*◌, ◌<◌, [], ◌∷◌, List, Some};
ghost use Rattle.tpal_machine.specs.declared.ends.End.{End};
ghost use Rattle.tpal_machine.specs.declared.ends.End.TheVariants.{At};
ghost use Rattle.tpal_machine.specs.declared.ends.SideName.TheVariants.{Left, Right};
ghost use Rattle.join_records.specs.declared.slot.Item.TheVariants.{Rest, Side};
ghost use Rattle.join_records.specs.declared.views.Grip.{Grip};
ghost use Rattle.join_records.specs.declared.views.Grip.TheVariants.{Emptying, Emptied};
ghost use Rattle.join_records.specs.declared.views.CallState.TheVariants.{Steady, Arriving};
ghost use Rattle.join_records.specs.Views.{drop_record, Holds, holds_end, NoneMet, read, with_ends};
ghost use Rattle.join_records.specs.Views.{with_hand};
ghost use Rattle.join_records.specs.Steps.{arrived_at};
ghost use Rattle.join_records.specs.Passes.{IsPassOf, IsSamePass, IsSameSeat, IsSeatOf};
ghost use Rattle.join_records.specs.Passes.{record_count, view};
ghost use Rattle.join_records.specs.Answers.{Arrives};

use crate::load::Load;
use crate::rule::{LeftArrived, LeftTaken, RightArrived, RightTaken, SlotsGiven};
use crate::slot::{Item, rest_in, side_in};
use crate::table::{Arrival, Met, Pass, Records};
use crate::word::{LEFT_ARRIVED, RIGHT_ARRIVED, lacks_left, lacks_right};
use tpal_machine::SideName;

impl<L: Load> Records<L> {
    // Puts the outcome of the left side into its slot, which comes to the seat.
    fn put_left(&self, pass: &mut Pass<L>, k: u32, out: L::Side)
        requires table { IsPassOf self.now pass.old }
        requires number { k < record_count self.now }
        requires end { NoneMet (view pass.old)
            × ((e : L.Ending) × Holds (view pass.old) (At k Left) e) }
        ensures slot { pass.new.seat.me.1 ≡ (4 * k + 2, Some (Side out)) ∷ [] }
        ensures seen { (x : ℕ)
            × ((e : L.Ending)
            → Holds (view pass.old) (At k Left) e
            → view pass.new
            ≡ with_ends (read (view pass.old) (k + 1) x) (holds_end (At k Left) e Arriving)) }
        ensures pass { IsSameSeat pass.old pass.new }
    {
        let seat = &mut pass.seat;
        let at = k as usize;
        self.table.shared.load::<LeftTaken>(seat, at + 1);
        drop(
            self.table
                .shared
                .exchange(seat, 4 * at + 2, Some(Item::Side(out))),
        );
    }

    // The arrival of the left side. Answers the word as it was.
    fn hit_left(&self, pass: &mut Pass<L>, k: u32) -> u64
        requires table { IsSeatOf self.now pass.old }
        requires number { k < record_count self.now }
        requires end { NoneMet (view pass.old)
            × ((e : L.Ending)
            × (d : L.Side)
            × ((view pass.old).ends ≡ holds_end (At k Left) e Arriving)
            × (pass.old.seat.me.1 ≡ (4 * k + 2, Some (Side d)) ∷ [])
            × L.is_ending d (At k Left) e) }
        ensures hit { (e : L.Ending)
            → (view pass.old).ends ≡ holds_end (At k Left) e Arriving
            → arrived_at L.keeps L.rest_owes L.is_ending Left (4 * record_count self.now)
            pass.old.seat.me result pass.new.seat.me k e }
        ensures pass { IsSameSeat pass.old pass.new }
    {
        let seat = &mut pass.seat;
        self.table
            .shared
            .fetch_or::<LeftArrived<L>>(seat, k as usize + 1, LEFT_ARRIVED)
    }

    // Puts the outcome of the right side into its slot, which comes to the seat.
    fn put_right(&self, pass: &mut Pass<L>, k: u32, out: L::Side)
        requires table { IsPassOf self.now pass.old }
        requires number { k < record_count self.now }
        requires end { NoneMet (view pass.old)
            × ((e : L.Ending) × Holds (view pass.old) (At k Right) e) }
        ensures slot { pass.new.seat.me.1 ≡ (4 * k + 3, Some (Side out)) ∷ [] }
        ensures seen { (x : ℕ)
            × ((e : L.Ending)
            → Holds (view pass.old) (At k Right) e
            → view pass.new
            ≡ with_ends (read (view pass.old) (k + 1) x)
            (holds_end (At k Right) e Arriving)) }
        ensures pass { IsSameSeat pass.old pass.new }
    {
        let seat = &mut pass.seat;
        let at = k as usize;
        self.table.shared.load::<RightTaken>(seat, at + 1);
        drop(
            self.table
                .shared
                .exchange(seat, 4 * at + 3, Some(Item::Side(out))),
        );
    }

    // The arrival of the right side. Answers the word as it was.
    fn hit_right(&self, pass: &mut Pass<L>, k: u32) -> u64
        requires table { IsSeatOf self.now pass.old }
        requires number { k < record_count self.now }
        requires end { NoneMet (view pass.old)
            × ((e : L.Ending)
            × (d : L.Side)
            × ((view pass.old).ends ≡ holds_end (At k Right) e Arriving)
            × (pass.old.seat.me.1 ≡ (4 * k + 3, Some (Side d)) ∷ [])
            × L.is_ending d (At k Right) e) }
        ensures hit { (e : L.Ending)
            → (view pass.old).ends ≡ holds_end (At k Right) e Arriving
            → arrived_at L.keeps L.rest_owes L.is_ending Right (4 * record_count self.now)
            pass.old.seat.me result pass.new.seat.me k e }
        ensures pass { IsSameSeat pass.old pass.new }
    {
        let seat = &mut pass.seat;
        self.table
            .shared
            .fetch_or::<RightArrived<L>>(seat, k as usize + 1, RIGHT_ARRIVED)
    }

    // Takes the rest, and the outcomes in the slots `a` and `b`, out of a met record. The slots go
    // home.
    fn collect(&self, pass: &mut Pass<L>, k: u32, a: usize, b: usize) -> (L::Rest, L::Side, L::Side)
        requires table { IsSeatOf self.now pass.old }
        requires number { k < record_count self.now }
        requires hand { (up : End)
            × (h : List (ℕ × Grip))
            × ((view pass.old).hand ≡ (k, Emptying up) ∷ drop_record k h) }
        requires places { ((a ≡ 4 * k + 2) × (b ≡ 4 * k + 3)) ⊎ ((a ≡ 4 * k + 3)
            × (b ≡ 4 * k + 2)) }
        requires slots { (r : L.Rest)
            × (o : L.Side)
            × (d : L.Side)
            × (pass.old.seat.me.1
            ≡ (4 * k, Some (Rest r)) ∷ (a, Some (Side o)) ∷ (b, Some (Side d)) ∷ []) }
        ensures values { pass.old.seat.me.1
            ≡ (4 * k, Some (Rest result.0)) ∷ (a, Some (Side result.1))
            ∷ (b, Some (Side result.2)) ∷ [] }
        ensures seen { (x : ℕ)
            × ((up : End) (h : List (ℕ × Grip))
            → (view pass.old).hand ≡ (k, Emptying up) ∷ drop_record k h
            → view pass.new
            ≡ with_hand (read (view pass.old) (k + 1) x)
            ((k, Emptied up) ∷ drop_record k h)) }
        ensures pass { IsSameSeat pass.old pass.new × (pass.new.seat.me.1 ≡ []) }
    {
        let seat = &mut pass.seat;
        let at = k as usize;
        let rest = self.table.shared.exchange(seat, 4 * at, None);
        seat.turn();
        let other = self.table.shared.exchange(seat, a, None);
        seat.turn();
        let own = self.table.shared.exchange(seat, b, None);
        seat.turn();
        self.table.shared.load::<SlotsGiven>(seat, at + 1);
        (rest_in(rest), side_in(other), side_in(own))
    }

    fn arrive_left(&self, pass: &mut Pass<L>, rec: u32, out: L::Side) -> Arrival<L>
        requires table { IsPassOf self.now pass.old }
        requires number { rec < record_count self.now }
        requires end { NoneMet (view pass.old)
            × ((e : L.Ending)
            × Holds (view pass.old) (At rec Left) e
            × L.is_ending out (At rec Left) e) }
        ensures arrived { (e : L.Ending)
            → Holds (view pass.old) (At rec Left) e
            → Arrives (record_count self.now) L.keeps L.rest_owes L.is_ending Left out
            (view pass.old) rec e result
            (view pass.new) }
        ensures pass { IsSamePass pass.old pass.new }
    {
        self.put_left(pass, rec, out);
        let found = self.hit_left(pass, rec);
        if lacks_right(found) {
            return Arrival::First;
        }
        let at = rec as usize;
        let (rest, right, left) = self.collect(pass, rec, 4 * at + 3, 4 * at + 2);
        Arrival::Second {
            rest,
            left,
            right,
            met: Met { number: rec },
        }
    }

    fn arrive_right(&self, pass: &mut Pass<L>, rec: u32, out: L::Side) -> Arrival<L>
        requires table { IsPassOf self.now pass.old }
        requires number { rec < record_count self.now }
        requires end { NoneMet (view pass.old)
            × ((e : L.Ending)
            × Holds (view pass.old) (At rec Right) e
            × L.is_ending out (At rec Right) e) }
        ensures arrived { (e : L.Ending)
            → Holds (view pass.old) (At rec Right) e
            → Arrives (record_count self.now) L.keeps L.rest_owes L.is_ending Right out
            (view pass.old) rec e result
            (view pass.new) }
        ensures pass { IsSamePass pass.old pass.new }
    {
        self.put_right(pass, rec, out);
        let found = self.hit_right(pass, rec);
        if lacks_left(found) {
            return Arrival::First;
        }
        let at = rec as usize;
        let (rest, left, right) = self.collect(pass, rec, 4 * at + 2, 4 * at + 3);
        Arrival::Second {
            rest,
            left,
            right,
            met: Met { number: rec },
        }
    }

    /// A side arrives with its outcome at a record whose end the pass holds. `First` comes exactly
    /// where the word that the arriving step reads lacks the other side's bit: the outcome stays
    /// there, and the pass holds no end. `Second` hands out the rest and both outcomes of this
    /// opening: the pass holds the end that the rest keeps, Root or an end of one of the table's
    /// records, and has the record in hand as met until it frees it. Root is held with Root's
    /// ending.
    pub fn arrive(&self, pass: &mut Pass<L>, rec: u32, side: SideName, out: L::Side) -> Arrival<L>
        requires table { IsPassOf self.now pass.old }
        requires number { rec < record_count self.now }
        requires end { (e : L.Ending)
            × Holds (view pass.old) (At rec side) e
            × L.is_ending out (At rec side) e }
        requires none_met { NoneMet (view pass.old) }
        ensures arrived { (e : L.Ending)
            → Holds (view pass.old) (At rec side) e
            → Arrives (record_count self.now) L.keeps L.rest_owes L.is_ending side out
            (view pass.old) rec e result
            (view pass.new) }
        ensures pass { IsSamePass pass.old pass.new }
    {
        match side {
            SideName::Left => self.arrive_left(pass, rec, out),
            SideName::Right => self.arrive_right(pass, rec, out),
        }
    }
}
