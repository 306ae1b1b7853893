// What the workers did, put together.

ghost use Rattle.std.specs.Prelude.{◌≡◌, ◌+◌, ◌-◌, ◌*◌, ◌^◌, ◌<◌, ◌≤◌, min, [], ◌∷◌, ◌++◌, All};
ghost use Rattle.std.specs.Prelude.{true, IfErr, IfOk, length, vec_capacity, vec_len};
ghost use Rattle.tpal_machine.specs.declared.ends.Ending.TheVariants as ending;
ghost use Rattle.join_records.specs.Passes.{ArePassesOf, IsPassOf, parts_in, view};
ghost use Rattle.join_records.specs.Views.{total};
ghost use Rattle.steal_pool.specs.Facts.{Owed};
ghost use Rattle.steal_pool.specs.Has.{Has, IsRooted};
ghost use Rattle.steal_pool.specs.Together.{Adds, AreSums, Gathered, IsOutcomeWith, IsOver};

use crate::desk::{Desk, Work};
use crate::load::{RunTerms, TaskLoad};
use crate::plan::Plan;
use crate::turn::Worker;
use join_records::{Closed, Load, Pass, Records};
use schedule_core::Report;
use tp_value::{NoMemory, Outcome};

/// What the workers did together, with their passes.
#[derive(Drop)]
pub(crate) struct Sum<S: RunTerms>
where
    TaskLoad<S>: Load,
{
    pub(crate) passes: Vec<Pass<TaskLoad<S>>>,
    pub(crate) outcome: Option<Outcome>,
    pub(crate) beats: u64,
    pub(crate) skipped: u64,
    pub(crate) instructions: u64,
}

// The outcome, where this worker made the finish. Memory was wanting where it hasn't ended.
fn outcome_with(work: Work, before: Option<Outcome>) -> Result<Option<Outcome>, NoMemory>
    ensures outcome { IfOk result (λ out. IsOutcomeWith work before out) }
    ensures wanting { IfErr result (λ _. IsOver work → ⊥) }
{
    match work {
        Work::Finished(outcome) => Ok(Some(outcome)),
        Work::Saw => Ok(before),
        Work::Nothing | Work::Runs(_) | Work::Ended(_) | Work::Lost => Err(NoMemory),
    }
}

impl<S: RunTerms> Sum<S> {
    // Adds what one worker did.
    fn add(self, plan: &Plan<S>, desk: Desk<S>) -> Result<Sum<S>, NoMemory>
        requires short { length self.passes.items ≤ 15 }
        requires room { vec_len self.passes < vec_capacity self.passes }
        requires desk { IsPassOf plan.now.records.now desk.pass
            × Has S.terms (view desk.pass) desk.taken desk.counts desk.work
            × IsRooted S.terms (view desk.pass) }
        requires outcome { Gathered S.terms self.outcome self.passes.items }
        requires adds { Adds S.terms self.beats self.skipped self.instructions self.passes.items }
        ensures passes { IfOk result (λ sum.
            sum.passes.items ≡ self.passes.items ++ desk.pass ∷ []) }
        ensures room { IfOk result (λ sum.
            (vec_capacity sum.passes ≡ vec_capacity self.passes)
            × (vec_len sum.passes ≡ vec_len self.passes + 1)) }
        ensures sums { IfOk result (λ sum.
            (sum.beats ≡ self.beats + desk.counts.beats)
            × (sum.skipped ≡ self.skipped + desk.counts.skipped)
            × (sum.instructions
            ≡ min (self.instructions + desk.counts.instructions) (2 ^ 64 - 1))) }
        ensures wanting { IfErr result (λ _. IsOver desk.work → ⊥) }
        ensures outcome { IfOk result (λ sum. Gathered S.terms sum.outcome sum.passes.items) }
        ensures adds { IfOk result
            (λ sum. Adds S.terms sum.beats sum.skipped sum.instructions sum.passes.items) }
    {
        let _ = plan;
        let Desk {
            pass,
            work,
            taken: _,
            counts,
        } = desk;
        let Sum {
            mut passes,
            outcome,
            beats,
            skipped,
            instructions,
        } = self;
        passes.push_reserved(pass);
        Ok(Sum {
            passes,
            outcome: outcome_with(work, outcome)?,
            beats: beats + counts.beats,
            skipped: skipped + counts.skipped,
            instructions: instructions.saturating_add(counts.instructions),
        })
    }
}

/// Puts together what the workers did, with their passes in a list that has room for them. Memory
/// was wanting where one of them hasn't ended, and only there.
pub(crate) fn gather<S: RunTerms>(
    plan: &Plan<S>,
    mut workers: Vec<Worker<S>>,
    passes: Vec<Pass<TaskLoad<S>>>,
) -> Result<Sum<S>, NoMemory>
    requires count { length workers.items ≤ 16 }
    requires empty { passes.items ≡ [] }
    requires room { length workers.items ≤ vec_capacity passes }
    requires each { All
        (λ w. IsPassOf plan.now.records.now w.desk.pass
        × Has S.terms (view w.desk.pass) w.desk.taken w.desk.counts w.desk.work
        × IsRooted S.terms (view w.desk.pass))
        workers.items }
    ensures passes { IfOk result (λ sum. ArePassesOf plan.now.records.now sum.passes.items) }
    ensures parts { IfOk result
        (λ sum. parts_in sum.passes.items ≡ total (λ w. (view w.desk.pass).parts) workers.items) }
    ensures count { IfOk result (λ sum. length sum.passes.items ≡ length workers.items) }
    ensures outcome { IfOk result (λ sum. Gathered S.terms sum.outcome sum.passes.items) }
    ensures adds { IfOk result
        (λ sum. Adds S.terms sum.beats sum.skipped sum.instructions sum.passes.items) }
    ensures sums { IfOk result (λ sum.
        AreSums (λ w. w.desk.counts) workers.items sum.beats sum.skipped sum.instructions) }
    ensures wanting { IfErr result (λ _. All (λ w. IsOver w.desk.work) workers.items → ⊥) }
{
    let mut sum = Sum {
        passes,
        outcome: None,
        beats: 0,
        skipped: 0,
        instructions: 0,
    };
    while let Some(worker) = workers.pop() {
        sum = sum.add(plan, worker.desk)?;
    }
    Ok(sum)
}

/// Closes the table of a run whose workers have ended, and tells what it came to, with the counts
/// of all of them.
pub(crate) fn close_run<S: RunTerms>(records: Records<TaskLoad<S>>, sum: Sum<S>) -> (Report, Closed)
    requires table { ArePassesOf records sum.passes.items }
    requires all { parts_in sum.passes.items ≡ 16 }
    requires outcome { Gathered S.terms sum.outcome sum.passes.items }
    requires adds { Adds S.terms sum.beats sum.skipped sum.instructions sum.passes.items }
    ensures owed { Owed S.terms.code S.terms.heartbeat S.terms.first
        (ending.Root result.0.outcome) }
    ensures few { result.0.beats ≤ S.terms.forks * length sum.passes.items }
    ensures beats { result.0.tasks + result.0.skipped ≡ result.0.beats }
    ensures paid { result.0.tasks * S.terms.heartbeat ≤ result.0.instructions }
    ensures closed { (result.1.finished ≡ true) × (result.1.opens ≡ result.0.tasks) }
    ensures sums { (result.0.beats ≡ sum.beats)
        × (result.0.skipped ≡ sum.skipped)
        × (result.0.instructions ≡ sum.instructions) }
{
    let Sum {
        passes,
        outcome,
        beats,
        skipped,
        instructions,
    } = sum;
    let closed = records.close(passes);
    let Some(outcome) = outcome else {
        unreachable!()
    };
    let report = Report {
        outcome,
        tasks: closed.opens(),
        beats,
        skipped,
        instructions,
    };
    (report, closed)
}
