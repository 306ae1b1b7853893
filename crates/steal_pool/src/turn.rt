// A worker's turn.

ghost use Rattle.std.specs.Prelude.{◌≡◌, ◌⊎◌, ◌<◌, [], All};
ghost use Rattle.crossbeam_deque.specs.Handles.{stealer_deque, worker_deque, worker_port};
ghost use Rattle.crossbeam_deque.specs.Tasks.{Finds};
ghost use Rattle.join_records.specs.Passes.{IsPassOf, view};
ghost use Rattle.steal_pool.specs.declared.desk.Work.TheVariants.{Nothing};
ghost use Rattle.steal_pool.specs.Stepped.{ClaimsNone, CountsTask, CountsTurn, SeesUnset};
ghost use Rattle.steal_pool.specs.Stepped.{SkipsFairly, UnlessLost, WhereAgain, WhereIdle};
ghost use Rattle.steal_pool.specs.Found.{FindsAll, HasLost};
ghost use Rattle.steal_pool.specs.Has.{Has, HasNothing, Runs, Stays};
ghost use Rattle.steal_pool.specs.Tied.{SameDeques};

use crate::deques::{EachEmptied, Numbers};
use crate::desk::{Desk, Work};
use crate::gate::{Gate, GateEvent};
use crate::load::{RunTerms, TaskLoad};
use crate::plan::Plan;
use crate::source::{Found, Source};
use crossbeam_deque::protocol::Protocol;
use join_records::Load;
use std::mem::replace;
use tpal_machine::Task;

/// A worker: its number, its desk, and where it gets numbers of records.
#[derive(Drop)]
pub(crate) struct Worker<S: RunTerms>
where
    TaskLoad<S>: Load,
    Numbers<S>: Protocol<u32, ()>,
{
    pub(crate) number: u32,
    pub(crate) desk: Desk<S>,
    pub(crate) source: Source<S>,
}

/// What a turn came to.
#[derive(Clone, Copy, PartialEq, Eq, Debug)]
pub(crate) enum Step {
    /// It did something.
    Worked,
    /// There was nothing to do, and the run isn't over.
    Idle,
    /// It lost a number to another worker, or the record of a number to another claim.
    Again,
    /// The worker has ended.
    Over,
}

impl<S: RunTerms> Worker<S> {
    // Hands on the number of a record that was opened. Without room for it the worker is lost.
    fn hand_on(&mut self, number: u32)
        requires number { number < S.terms.records }
        requires has { Has S.terms (view self.old.desk.pass) self.old.desk.taken
            self.old.desk.counts self.old.desk.work }
        ensures pass { self.new.desk.pass ≡ self.old.desk.pass }
        ensures has { Has S.terms (view self.new.desk.pass) self.new.desk.taken
            self.new.desk.counts self.new.desk.work }
        ensures counts { self.new.desk.counts ≡ self.old.desk.counts }
        ensures work { UnlessLost self.new.desk.work
            (self.new.desk.work ≡ self.old.desk.work) }
        ensures deques { SameDeques self.old.source self.new.source }
    {
        if !self.source.put(number) {
            self.desk.work = Work::Lost;
        }
    }

    // Runs its task, and hands on the number of a record that was opened.
    fn run<G: Gate>(&mut self, plan: &Plan<S>, gate: &G, task: Task)
        requires table { IsPassOf plan.now.records.now self.old.desk.pass }
        requires runs { Runs S.terms (view self.old.desk.pass) self.old.desk.taken
            self.old.desk.counts task }
        ensures pass { IsPassOf plan.now.records.now self.new.desk.pass
            × Stays (view self.old.desk.pass) (view self.new.desk.pass) }
        ensures has { Has S.terms (view self.new.desk.pass) self.new.desk.taken
            self.new.desk.counts self.new.desk.work }
        ensures skipped { SkipsFairly S.terms.records (view self.old.desk.pass)
            self.old.desk.counts (view self.new.desk.pass) self.new.desk.counts }
        ensures counts { UnlessLost self.new.desk.work
            (CountsTask S.terms task self.old.desk.counts self.new.desk.counts) }
        ensures deques { SameDeques self.old.source self.new.source }
    {
        if let Some(number) = self.desk.run(plan, task) {
            self.hand_on(number);
            plan.sleepers.notify_one();
            gate.at(self.number, GateEvent::Opened);
        }
    }

    // Looks for a child to claim, and where there is none whether the finish was made.
    fn look<E: EachEmptied, G: Gate>(&mut self, plan: &Plan<S>, gate: &G) -> Step
        requires table { IsPassOf plan.now.records.now self.old.desk.pass }
        requires nothing { self.old.desk.work ≡ Nothing }
        requires has { HasNothing S.terms (view self.old.desk.pass) self.old.desk.taken
            self.old.desk.counts }
        requires own { Finds S.deque (worker_port self.old.source.owner) tt
            (E.each (worker_deque self.old.source.owner)) }
        requires others { FindsAll S.deque E.each self.old.source.others.items }
        ensures pass { IsPassOf plan.now.records.now self.new.desk.pass
            × Stays (view self.old.desk.pass) (view self.new.desk.pass) }
        ensures has { Has S.terms (view self.new.desk.pass) self.new.desk.taken
            self.new.desk.counts self.new.desk.work }
        ensures empty { WhereIdle result (self.old.source.list.items ≡ []) }
        ensures own { WhereIdle result (E.each (worker_deque self.old.source.owner)) }
        ensures others { WhereIdle result
            (All (λ o. E.each (stealer_deque o.thief)) self.old.source.others.items) }
        ensures unset { WhereIdle result
            (SeesUnset (view self.old.desk.pass) (view self.new.desk.pass)) }
        ensures again { WhereAgain result
            (HasLost E.each self.old.source.others.items self.new.source.others.items
            ⊎ ClaimsNone (view self.old.desk.pass) (view self.new.desk.pass)) }
        ensures counts { self.new.desk.counts ≡ self.old.desk.counts }
        ensures deques { SameDeques self.old.source self.new.source }
    {
        match self.source.find::<E>() {
            Found::Number(number) => {
                if !self.desk.claim(plan, number) {
                    return Step::Again;
                }
                gate.at(self.number, GateEvent::Claimed);
                Step::Worked
            }
            Found::Lost => Step::Again,
            Found::Nothing => {
                if self.desk.look(plan) {
                    Step::Over
                } else {
                    Step::Idle
                }
            }
        }
    }

    /// One turn: runs the task that the worker has, or settles what it ended with, or looks for
    /// another. `Idle` comes only where its list was empty, its own deque and each other one was
    /// found empty at a moment of this turn, and the finish word was read unset. `Again` comes only
    /// where a steal lost to another taker, or a claim found its child gone. A question for a
    /// record is skipped only where each record was read as not free in this turn.
    pub(crate) fn turn<E: EachEmptied, G: Gate>(&mut self, plan: &Plan<S>, gate: &G) -> Step
        requires table { IsPassOf plan.now.records.now self.old.desk.pass }
        requires has { Has S.terms (view self.old.desk.pass) self.old.desk.taken
            self.old.desk.counts self.old.desk.work }
        requires own { Finds S.deque (worker_port self.old.source.owner) tt
            (E.each (worker_deque self.old.source.owner)) }
        requires others { FindsAll S.deque E.each self.old.source.others.items }
        ensures pass { IsPassOf plan.now.records.now self.new.desk.pass
            × Stays (view self.old.desk.pass) (view self.new.desk.pass) }
        ensures has { Has S.terms (view self.new.desk.pass) self.new.desk.taken
            self.new.desk.counts self.new.desk.work }
        ensures empty { WhereIdle result (self.old.source.list.items ≡ []) }
        ensures own { WhereIdle result (E.each (worker_deque self.old.source.owner)) }
        ensures others { WhereIdle result
            (All (λ o. E.each (stealer_deque o.thief)) self.old.source.others.items) }
        ensures unset { WhereIdle result
            (SeesUnset (view self.old.desk.pass) (view self.new.desk.pass)) }
        ensures again { WhereAgain result
            (HasLost E.each self.old.source.others.items self.new.source.others.items
            ⊎ ClaimsNone (view self.old.desk.pass) (view self.new.desk.pass)) }
        ensures skipped { SkipsFairly S.terms.records (view self.old.desk.pass)
            self.old.desk.counts (view self.new.desk.pass) self.new.desk.counts }
        ensures counts { CountsTurn S.terms self.old.desk.work self.old.desk.counts
            self.new.desk.work self.new.desk.counts }
        ensures deques { SameDeques self.old.source self.new.source }
    {
        match replace(&mut self.desk.work, Work::Nothing) {
            Work::Runs(task) => {
                self.run(plan, gate, task);
                Step::Worked
            }
            Work::Ended(ending) => {
                self.desk.settle(plan, ending);
                Step::Worked
            }
            Work::Nothing => self.look::<E, G>(plan, gate),
            over @ (Work::Finished(_) | Work::Saw | Work::Lost) => {
                self.desk.work = over;
                Step::Over
            }
        }
    }
}
