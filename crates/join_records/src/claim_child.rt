// The claim of an open record's child.

ghost use Rattle.std.specs.Prelude.{◌≡◌, ◌≢◌, ℕ, ◌+◌, ◌%◌, ◌<◌, IfNone, IfSome, IfOk, IfErr};
ghost use Rattle.tpal_machine.specs.declared.ends.End.TheVariants.{At};
ghost use Rattle.tpal_machine.specs.declared.ends.SideName.TheVariants.{Right};
ghost use Rattle.join_records.specs.Words.{IsClaimable};
ghost use Rattle.join_records.specs.Views.{HoldsNothing, read};
ghost use Rattle.join_records.specs.Passes.{IsPassOf, IsSamePass, record_count, view};
ghost use Rattle.join_records.specs.Answers.{claimed_view, ClaimsSoon, Unclaimable};

use crate::load::Load;
use crate::rule::{ChildGiven, RecordClaimed};
use crate::slot::child_in;
use crate::table::{Pass, Records};
use crate::word::{CLAIMED, is_claimable};

impl<L: Load> Records<L> {
    // One try to claim, from the word that was found. Answers the child, or the word found now.
    fn try_claim(&self, pass: &mut Pass<L>, k: u32, found: u64) -> Result<L::Child, u64>
        requires table { IsPassOf self.now pass.old }
        requires number { k < record_count self.now }
        requires word { IsClaimable found }
        requires endless { HoldsNothing (view pass.old) }
        ensures claimed { IfOk result
            (λ child. (e : L.Ending)
            × (again : ℕ)
            × L.owes child e
            × (view pass.new ≡ claimed_view (view pass.old) k found again e)) }
        ensures end { IfOk result (λ child. L.has_end child (At k Right)) }
        ensures changed { IfErr result
            (λ now. (now ≢ found) × (view pass.new ≡ read (view pass.old) (k + 1) now)) }
        ensures pass { IsSamePass pass.old pass.new }
    {
        let seat = &mut pass.seat;
        let at = k as usize;
        let now = self
            .table
            .shared
            .compare_exchange::<RecordClaimed<L>>(seat, at + 1, found, found + CLAIMED);
        if now != found {
            return Err(now);
        }
        let item = self.table.shared.exchange(seat, 4 * at + 1, None);
        self.table.shared.load::<ChildGiven>(seat, at + 1);
        Ok(child_in(item))
    }

    /// Claims the child of a record, for a pass that holds no end. It then holds the record's right
    /// end. None comes only where the record's word was read in this call as not open or as
    /// claimed, or three times, each time with another value than the time before.
    pub fn claim(&self, pass: &mut Pass<L>, rec: u32) -> Option<L::Child>
        requires table { IsPassOf self.now pass.old }
        requires number { rec < record_count self.now }
        requires endless { HoldsNothing (view pass.old) }
        ensures claimed { IfSome result (λ child.
            ClaimsSoon L.owes (view pass.old) rec child (view pass.new)) }
        ensures end { IfSome result (λ child. L.has_end child (At rec Right)) }
        ensures none { IfNone result (Unclaimable (view pass.old) rec (view pass.new)) }
        ensures pass { IsSamePass pass.old pass.new }
    {
        let first = self.read_word(pass, rec);
        if !is_claimable(first) {
            return None;
        }
        let second = match self.try_claim(pass, rec, first) {
            Ok(child) => return Some(child),
            Err(now) => now,
        };
        if !is_claimable(second) {
            return None;
        }
        match self.try_claim(pass, rec, second) {
            Ok(child) => Some(child),
            Err(_) => None,
        }
    }
}
