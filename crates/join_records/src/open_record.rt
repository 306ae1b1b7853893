// The opening of a record that was taken.

ghost use Rattle.std.specs.Prelude.{◌≡◌, ◌≢◌, ℕ, ◌+◌, ◌*◌, ◌^◌, [], ◌∷◌, ◌<◌, Some};
ghost use Rattle.tpal_machine.specs.declared.ends.End.TheVariants.{At};
ghost use Rattle.tpal_machine.specs.declared.ends.SideName.TheVariants.{Left, Right};
ghost use Rattle.join_records.specs.declared.slot.Item.TheVariants.{Rest, Child};
ghost use Rattle.join_records.specs.declared.views.Grip.TheVariants.{Reserved, Filling};
ghost use Rattle.join_records.specs.Ends.{code_of};
ghost use Rattle.join_records.specs.Views.{in_hand, NoneMet, opened_view, read};
ghost use Rattle.join_records.specs.Passes.{IsPassOf, IsSamePass, IsSameSeat, IsSeatOf};
ghost use Rattle.join_records.specs.Passes.{record_count, taken_number, view};
ghost use Rattle.join_records.specs.Answers.{filling_view, Merges, MergesAt};

use crate::load::Load;
use crate::rule::{Law, Owing, PlacesTaken, RecordOpened};
use crate::slot::Item;
use crate::table::{Owed, Pass, Records, Taken};
use crate::word::{END_STEP, OPENED, TAKEN, end_code};
use std::marker::{Brand, PhantomData};
use tpal_machine::End;

impl<L: Load> Records<L> {
    // Puts the rest and the child into the slots of a record in hand, which come to the seat.
    fn place(&self, pass: &mut Pass<L>, k: u32, rest: L::Rest, child: L::Child)
        requires table { IsPassOf self.now pass.old }
        requires hand { in_hand (view pass.old).hand k ≡ Some Reserved }
        requires number { k < record_count self.now }
        ensures slots { pass.new.seat.me.1
            ≡ (4 * k + 1, Some (Child child)) ∷ (4 * k, Some (Rest rest)) ∷ [] }
        ensures seen { (x : ℕ) × (view pass.new ≡ filling_view (view pass.old) k x) }
        ensures pass { IsSameSeat pass.old pass.new }
    {
        let seat = &mut pass.seat;
        let at = k as usize;
        self.table.shared.load::<PlacesTaken>(seat, at + 1);
        drop(
            self.table
                .shared
                .exchange(seat, 4 * at, Some(Item::Rest(rest))),
        );
        seat.turn();
        drop(
            self.table
                .shared
                .exchange(seat, 4 * at + 1, Some(Item::Child(child))),
        );
    }

    // Opens a record whose slots are filled. The call picks the ending that the left child owes.
    fn open_filled<J: Owing<L::Ending>>(
        &self,
        pass: &mut Pass<L>,
        k: u32,
        up: End,
        left: &Owed<'_, L::Child, L::Ending, Law<L>>,
    )
        requires table { IsSeatOf self.now pass.old }
        requires number { k < record_count self.now }
        requires hand { (in_hand (view pass.old).hand k ≡ Some Filling)
            × NoneMet (view pass.old)
            × ((view pass.old).opens < 2 ^ 32) }
        requires picks { J.ending ≡ Some left.now.promise.0 }
        requires fits { (rest : L.Rest)
            × (child : L.Child)
            × (pass.old.seat.me.1
            ≡ (4 * k + 1, Some (Child child)) ∷ (4 * k, Some (Rest rest)) ∷ [])
            × L.keeps rest up
            × L.has_end child (At k Right)
            × MergesAt L.owes L.rest_owes (view pass.old) up rest left.now.promise.0 child }
        ensures seen { (e : L.Ending)
            → L.owes left.now.child.now e
            → view pass.new ≡ opened_view (view pass.old) k e }
        ensures pass { IsSameSeat pass.old pass.new × (pass.new.seat.me.1 ≡ []) }
    {
        let _ = left;
        let seat = &mut pass.seat;
        let word = OPENED + END_STEP * end_code(up);
        self.table
            .shared
            .compare_exchange::<RecordOpened<J>>(seat, k as usize + 1, TAKEN, word);
        pass.opens += 1;
    }

    /// Opens a record: the rest waits there for both sides, and the child to be claimed. The pass
    /// goes on with the left end, in place of the end `up` that the rest keeps. Answers the
    /// record's number.
    pub fn open_at(
        &self,
        pass: &mut Pass<L>,
        taken: Taken,
        rest: L::Rest,
        left: &L::Child,
        child: L::Child,
        up: End,
    ) -> u32
        requires table { IsPassOf self.now pass.old }
        requires number { taken_number taken < record_count self.now }
        requires hand { in_hand (view pass.old).hand (taken_number taken) ≡ Some Reserved }
        requires none_met { NoneMet (view pass.old) }
        requires opens { (view pass.old).opens < 2 ^ 32 }
        requires left { L.has_end left.now (At (taken_number taken) Left) }
        requires child { L.has_end child (At (taken_number taken) Right) }
        requires keeps { L.keeps rest up }
        requires merges { Merges L.owes L.rest_owes (view pass.old) up rest left.now child }
        ensures number { result ≡ taken_number taken }
        ensures opened { (e : L.Ending)
            × L.owes left.now e
            × ((x : ℕ)
            × (view pass.new
            ≡ opened_view (read (view pass.old) (taken_number taken + 1) x)
            (taken_number taken) e)) }
        ensures pass { IsSamePass pass.old pass.new }
    {
        let k = taken.number;
        let owed = Owed {
            child: left,
            of: PhantomData,
        };
        self.place(pass, k, rest, child);
        self.open_filled::<Brand>(pass, k, up, &owed);
        k
    }
}
