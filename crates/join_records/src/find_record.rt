// The search for a free record, and the look at the finish word.

ghost use Rattle.std.specs.Prelude.{◌≡◌, ◌≢◌, ℕ, ◌+◌, ◌<◌, ◌≤◌, ◌==◌, IfNone, IfSome, MatchBool};
ghost use Rattle.join_records.specs.Views.{read};
ghost use Rattle.join_records.specs.Passes.{IsPassOf, IsSamePass, record_count, taken_number, view};
ghost use Rattle.join_records.specs.Answers.{FoundFree, HoldsNoSide, NoneFree, reserved_view};

use crate::load::Load;
use crate::rule::{Loaded, RecordTaken};
use crate::table::{Pass, Records, Taken};
use crate::word::TAKEN;

impl Taken {
    /// The record's number.
    pub fn number(&self) -> u32
        ensures { result ≡ taken_number self.now }
    {
        self.number
    }
}

// Where a search begins.
fn start_of(next: u32, count: u32) -> u32
    ensures { result ≤ count }
{
    if next < count { next } else { 0 }
}

impl<L: Load> Records<L> {
    /// Whether the finish was made, as the finish word tells.
    pub fn finished(&self, pass: &mut Pass<L>) -> bool
        requires table { IsPassOf self.now pass.old }
        ensures word { (x : ℕ) × (view pass.new ≡ read (view pass.old) 0 x) × (result ≡ (x == 1)) }
        ensures pass { IsSamePass pass.old pass.new }
    {
        let seat = &mut pass.seat;
        let found = self.table.shared.load::<Loaded>(seat, 0);
        found == 1
    }

    // The word of a record.
    pub(crate) fn read_word(&self, pass: &mut Pass<L>, k: u32) -> u64
        requires table { IsPassOf self.now pass.old }
        requires number { k < record_count self.now }
        ensures word { view pass.new ≡ read (view pass.old) (k + 1) result }
        ensures pass { IsSamePass pass.old pass.new }
    {
        let seat = &mut pass.seat;
        self.table.shared.load::<Loaded>(seat, k as usize + 1)
    }

    // Takes a record where its word is 0.
    fn take(&self, pass: &mut Pass<L>, k: u32) -> bool
        requires table { IsPassOf self.now pass.old }
        requires number { k < record_count self.now }
        ensures taken { MatchBool result
            ((view pass.new ≡ reserved_view (view pass.old) k) × HoldsNoSide (view pass.old) k)
            ((x : ℕ) × (x ≢ 0) × (view pass.new ≡ read (view pass.old) (k + 1) x)) }
        ensures pass { IsSamePass pass.old pass.new }
    {
        let seat = &mut pass.seat;
        let found = self
            .table
            .shared
            .compare_exchange::<RecordTaken>(seat, k as usize + 1, 0, TAKEN);
        found == 0
    }

    // Looks whether a record is free before it tries to take it: a full table costs loads alone.
    fn try_take(&self, pass: &mut Pass<L>, k: u32) -> bool
        requires table { IsPassOf self.now pass.old }
        requires number { k < record_count self.now }
        ensures taken { MatchBool result
            (FoundFree (view pass.old) k (view pass.new) × HoldsNoSide (view pass.old) k)
            (NoneFree k (k + 1) (view pass.old) (view pass.new)) }
        ensures pass { IsSamePass pass.old pass.new }
    {
        if self.read_word(pass, k) != 0 {
            return false;
        }
        self.take(pass, k)
    }

    // Takes the first free record from `from` to below `to`.
    fn find_between(&self, pass: &mut Pass<L>, from: u32, to: u32) -> Option<Taken>
        requires table { IsPassOf self.now pass.old }
        requires numbers { (from ≤ to) × (to ≤ record_count self.now) }
        ensures found { IfSome result
            (λ taken. FoundFree (view pass.old) (taken_number taken) (view pass.new)
            × HoldsNoSide (view pass.old) (taken_number taken)
            × (taken_number taken < record_count self.now)) }
        ensures none { IfNone result (NoneFree from to (view pass.old) (view pass.new)) }
        ensures pass { IsSamePass pass.old pass.new }
    {
        for k in from..to {
            if self.try_take(pass, k) {
                pass.next = k;
                return Some(Taken { number: k });
            }
        }
        None
    }

    /// Takes a free record, which comes into the pass's hand. None comes only where each record was
    /// read in this call as not free. The search begins where this pass last found one.
    pub fn find_free(&self, pass: &mut Pass<L>) -> Option<Taken>
        requires table { IsPassOf self.now pass.old }
        ensures found { IfSome result
            (λ taken. FoundFree (view pass.old) (taken_number taken) (view pass.new)) }
        ensures number { IfSome result (λ taken. taken_number taken < record_count self.now) }
        ensures apart { IfSome result (λ taken. HoldsNoSide (view pass.old) (taken_number taken)) }
        ensures none { IfNone result (NoneFree 0 (record_count self.now) (view pass.old)
            (view pass.new)) }
        ensures pass { IsSamePass pass.old pass.new }
    {
        let start = start_of(pass.next, self.count);
        match self.find_between(pass, start, self.count) {
            Some(taken) => Some(taken),
            None => self.find_between(pass, 0, start),
        }
    }
}
