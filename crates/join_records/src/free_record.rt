// A met record is given back, and the finish is made.

ghost use Rattle.std.specs.Prelude.{◌≡◌, ℕ, ◌+◌, ◌*◌, ◌<◌, [], Some};
ghost use Rattle.tpal_machine.specs.declared.ends.End.{End};
ghost use Rattle.tpal_machine.specs.declared.ends.End.TheVariants.{Root};
ghost use Rattle.join_records.specs.Ends.{code_of};
ghost use Rattle.join_records.specs.Views.{drop_record, HasMet, Holds, NoneMet, one_made, read};
ghost use Rattle.join_records.specs.Views.{with_ends, with_hand};
ghost use Rattle.join_records.specs.Passes.{IsPassOf, IsSamePass, met_number, record_count, view};

use crate::load::Load;
use crate::rule::{FinishMade, FullRead, RecordFreed};
use crate::table::{Met, Pass, Records};

impl Met {
    /// The record's number.
    pub fn number(&self) -> u32
        ensures { result ≡ met_number self.now }
    {
        self.number
    }
}

impl<L: Load> Records<L> {
    // The word of a met record in hand.
    fn read_full(&self, pass: &mut Pass<L>, k: u32) -> u64
        requires table { IsPassOf self.now pass.old }
        requires number { k < record_count self.now }
        ensures word { view pass.new ≡ read (view pass.old) (k + 1) result }
        ensures full { (up : End) → HasMet (view pass.old) k up → result ≡ 31 + 256 * code_of up }
        ensures pass { IsSamePass pass.old pass.new }
    {
        let seat = &mut pass.seat;
        self.table.shared.load::<FullRead>(seat, k as usize + 1)
    }

    /// Gives a met record back. It is free, and out of the pass's hand.
    pub fn free(&self, pass: &mut Pass<L>, met: Met)
        requires table { IsPassOf self.now pass.old }
        requires number { met_number met < record_count self.now }
        requires hand { (up : End) × HasMet (view pass.old) (met_number met) up }
        ensures freed { (x : ℕ)
            × (view pass.new
            ≡ with_hand
            (read (read (view pass.old) (met_number met + 1) x) (met_number met + 1) x)
            (drop_record (met_number met) (view pass.old).hand)) }
        ensures pass { IsSamePass pass.old pass.new }
    {
        let k = met.number;
        let full = self.read_full(pass, k);
        let seat = &mut pass.seat;
        self.table
            .shared
            .compare_exchange::<RecordFreed>(seat, k as usize + 1, full, 0);
    }

    /// Makes the finish, for the pass that holds Root. What was owed there is Root's ending.
    pub fn finish(&self, pass: &mut Pass<L>)
        requires table { IsPassOf self.now pass.old }
        requires root { (e : L.Ending) × Holds (view pass.old) Root e }
        requires none_met { NoneMet (view pass.old) }
        ensures finished { view pass.new ≡ one_made (with_ends (view pass.old) []) }
        ensures once { (view pass.old).made ≡ 0 }
        ensures root { (e : L.Ending) → Holds (view pass.old) Root e →
            (view pass.old).root ≡ Some e }
        ensures pass { IsSamePass pass.old pass.new }
    {
        let seat = &mut pass.seat;
        self.table.shared.store::<FinishMade>(seat, 0, 1);
        pass.made = true;
    }
}
