// What a task ended with comes to where it was to end.

ghost use Rattle.std.specs.Prelude.{◌≡◌, MatchResult};
ghost use Rattle.tpal_machine.specs.declared.ends.Ending.TheVariants as ending;
ghost use Rattle.join_records.specs.Passes.{IsPassOf, view};
ghost use Rattle.steal_pool.specs.declared.desk.Work.TheVariants.{Lost};
ghost use Rattle.steal_pool.specs.Has.{Has, HasEnded, Stays, work_after};

use crate::desk::{Desk, Work};
use crate::load::RunTerms;
use crate::plan::Plan;
use join_records::Arrival;
use tp_value::{NoMemory, Outcome};
use tpal_machine::{Ending, Merged, Side, SideName, merge};

impl<S: RunTerms> Desk<S> {
    // A side arrives at its record. The second to arrive merges both, and frees the record.
    fn arrive(&mut self, plan: &Plan<S>, rec: u32, side: SideName, out: Side)
        requires table { IsPassOf plan.now.records.now self.old.pass }
        requires ended { HasEnded S.terms (view self.old.pass) self.old.taken self.old.counts
            (ending.At rec side out) }
        ensures pass { IsPassOf plan.now.records.now self.new.pass
            × Stays (view self.old.pass) (view self.new.pass) }
        ensures has { Has S.terms (view self.new.pass) self.new.taken self.new.counts
            self.new.work }
        ensures counts { self.new.counts ≡ self.old.counts }
    {
        match plan.records.arrive(&mut self.pass, rec, side, out) {
            Arrival::First => self.work = Work::Nothing,
            Arrival::Second {
                rest,
                left,
                right,
                met,
            } => {
                let merged = merge(rest, left, right, plan.code);
                plan.records.free(&mut self.pass, met);
                self.work = work_of(merged);
            }
        }
    }

    // Makes the finish.
    fn finish(&mut self, plan: &Plan<S>, outcome: Outcome)
        requires table { IsPassOf plan.now.records.now self.old.pass }
        requires ended { HasEnded S.terms (view self.old.pass) self.old.taken self.old.counts
            (ending.Root outcome) }
        ensures pass { IsPassOf plan.now.records.now self.new.pass
            × Stays (view self.old.pass) (view self.new.pass) }
        ensures has { Has S.terms (view self.new.pass) self.new.taken self.new.counts
            self.new.work }
        ensures counts { self.new.counts ≡ self.old.counts }
    {
        plan.records.finish(&mut self.pass);
        self.work = Work::Finished(outcome);
    }

    /// What a task ended with arrives at its record, or is the outcome of the run.
    pub(crate) fn settle(&mut self, plan: &Plan<S>, ending: Ending)
        requires table { IsPassOf plan.now.records.now self.old.pass }
        requires ended { HasEnded S.terms (view self.old.pass) self.old.taken self.old.counts
            ending }
        ensures pass { IsPassOf plan.now.records.now self.new.pass
            × Stays (view self.old.pass) (view self.new.pass) }
        ensures has { Has S.terms (view self.new.pass) self.new.taken self.new.counts
            self.new.work }
        ensures counts { self.new.counts ≡ self.old.counts }
    {
        match ending {
            Ending::At { rec, side, out } => self.arrive(plan, rec, side, out),
            Ending::Root(outcome) => self.finish(plan, outcome),
        }
    }
}

// What a worker has after a merge.
fn work_of(merged: Result<Merged, NoMemory>) -> Work
    ensures { MatchResult merged (λ m. result ≡ work_after m) (λ _. result ≡ Lost) }
{
    match merged {
        Ok(Merged::Runs(task)) => Work::Runs(task),
        Ok(Merged::Arrived { rec, side, out }) => Work::Ended(Ending::At { rec, side, out }),
        Ok(Merged::Halted(outcome)) => Work::Ended(Ending::Root(outcome)),
        Err(NoMemory) => Work::Lost,
    }
}
