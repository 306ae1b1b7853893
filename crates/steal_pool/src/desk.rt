// A worker's desk: its pass to the records, what it has, and its counts.

ghost use Rattle.std.specs.Prelude.{◌≡◌, ◌+◌, ◌<◌, ◌-◌, ◌^◌, ⊤, min, IfSome, IfNone, MatchBool};
ghost use Rattle.tpal_machine.specs.Owes.{Owes};
ghost use Rattle.tpal_machine.specs.Memory.{WhereWanting};
ghost use Rattle.join_records.specs.Passes.{IsPassOf, view};
ghost use Rattle.join_records.specs.Answers.{NoneFree, Unclaimable};
ghost use Rattle.steal_pool.specs.declared.desk.Work.TheVariants.{Lost, Nothing};
ghost use Rattle.steal_pool.specs.Has.{Asks, Forks, Has, HasNothing, Runs, Stays, TurnFits};
ghost use Rattle.steal_pool.specs.Has.{count_in};
ghost use Rattle.steal_pool.specs.Stepped.{CountsTask, goes_on, SeesUnset, SkipsFairly, UnlessLost};
ghost use Rattle.steal_pool.specs.Together.{no_counts};

use crate::load::{RunTerms, TaskLoad};
use crate::plan::Plan;
use join_records::{Load, Pass, Taken};
use tp_value::Outcome;
use tpal_machine::{Ending, Pace, Rest, Task, Turn, answer, run_task};

/// The instructions of a turn, at most.
const TURN_STEPS: u32 = 4096;

/// What a worker has between two turns.
#[derive(Drop)]
pub(crate) enum Work {
    /// Nothing: it looks for a child to claim.
    Nothing,
    /// A task that runs.
    Runs(Task),
    /// What a task ended with, which has yet to arrive there.
    Ended(Ending),
    /// It made the finish, with this outcome.
    Finished(Outcome),
    /// It saw that another made the finish.
    Saw,
    /// It found no memory for its task, which is gone.
    Lost,
}

/// What a worker counts.
#[derive(Clone, Copy, PartialEq, Eq, Debug)]
pub(crate) struct Counts {
    /// The diversions of its tasks.
    pub(crate) beats: u64,
    /// The questions for a record that it answered with none, since none was free.
    pub(crate) skipped: u64,
    /// The instructions that it executed. It stays at its type's end.
    pub(crate) instructions: u64,
}

/// A worker's desk.
#[derive(Drop)]
pub(crate) struct Desk<S: RunTerms>
where
    TaskLoad<S>: Load,
{
    pub(crate) pass: Pass<TaskLoad<S>>,
    pub(crate) work: Work,
    /// The record that its task was given and has yet to open.
    pub(crate) taken: Option<Taken>,
    pub(crate) counts: Counts,
}

impl Counts {
    pub(crate) fn new() -> Counts
        ensures { result ≡ no_counts }
    {
        Counts {
            beats: 0,
            skipped: 0,
            instructions: 0,
        }
    }

    // So many instructions and beats more.
    fn add(&mut self, steps: u64, beats: u64)
        requires { self.old.beats + beats < 2 ^ 64 }
        ensures beats { self.new.beats ≡ self.old.beats + beats }
        ensures skipped { self.new.skipped ≡ self.old.skipped }
        ensures instructions { self.new.instructions
            ≡ min (self.old.instructions + steps) (2 ^ 64 - 1) }
    {
        self.beats += beats;
        self.instructions = self.instructions.saturating_add(steps);
    }
}

impl<S: RunTerms> Desk<S> {
    // Answers a task that asked for a record: with a free one, or with none where each record was
    // read as not free. Each question is a search, which begins where the last one found a record.
    fn ask(&mut self, plan: &Plan<S>, task: Task)
        requires table { IsPassOf plan.now.records.now self.old.pass }
        requires asks { Asks S.terms (view self.old.pass) self.old.taken self.old.counts task }
        ensures pass { IsPassOf plan.now.records.now self.new.pass
            × Stays (view self.old.pass) (view self.new.pass) }
        ensures has { Has S.terms (view self.new.pass) self.new.taken self.new.counts
            self.new.work }
        ensures answer { self.new.work ≡ goes_on self.new.taken task }
        ensures none { IfNone self.new.taken
            (NoneFree 0 S.terms.records (view self.old.pass) (view self.new.pass)) }
        ensures skipped { self.new.counts.skipped + count_in self.new.taken
            ≡ self.old.counts.skipped + 1 }
        ensures counts { (self.new.counts.beats ≡ self.old.counts.beats)
            × (self.new.counts.instructions ≡ self.old.counts.instructions) }
    {
        match plan.records.find_free(&mut self.pass) {
            Some(taken) => {
                let number = taken.number();
                self.taken = Some(taken);
                self.work = Work::Runs(answer(task, Some(number)));
            }
            None => {
                self.counts.skipped += 1;
                self.work = Work::Runs(answer(task, None));
            }
        }
    }

    // Opens the record that was taken, for the parts of a fork. Answers its number.
    fn open(&mut self, plan: &Plan<S>, left: Task, rest: Rest, child: Task) -> u32
        requires table { IsPassOf plan.now.records.now self.old.pass }
        requires forks { (rec : _)
            × Forks S.terms (view self.old.pass) self.old.taken self.old.counts
            (record { rec = rec; left = left; rest = rest; child = child }) }
        ensures pass { IsPassOf plan.now.records.now self.new.pass
            × Stays (view self.old.pass) (view self.new.pass) }
        ensures has { Has S.terms (view self.new.pass) self.new.taken self.new.counts
            self.new.work }
        ensures number { result < S.terms.records }
        ensures counts { self.new.counts ≡ self.old.counts }
    {
        let Some(taken) = self.taken.take() else {
            unreachable!()
        };
        let up = rest.end();
        let number = plan
            .records
            .open_at(&mut self.pass, taken, rest, &left, child, up);
        self.work = Work::Runs(left);
        number
    }

    // Does what a turn of the task asks. Answers the number of a record that was opened.
    fn follow(&mut self, plan: &Plan<S>, turn: Turn) -> Option<u32>
        requires table { IsPassOf plan.now.records.now self.old.pass }
        requires fits { TurnFits S.terms (view self.old.pass) self.old.taken self.old.counts turn }
        ensures pass { IsPassOf plan.now.records.now self.new.pass
            × Stays (view self.old.pass) (view self.new.pass) }
        ensures has { Has S.terms (view self.new.pass) self.new.taken self.new.counts
            self.new.work }
        ensures number { IfSome result (λ k. k < S.terms.records) }
        ensures skipped { SkipsFairly S.terms.records (view self.old.pass) self.old.counts
            (view self.new.pass) self.new.counts }
        ensures counts { (self.new.counts.beats ≡ self.old.counts.beats)
            × (self.new.counts.instructions ≡ self.old.counts.instructions) }
        ensures wanting { WhereWanting turn (self.new.work ≡ Lost) }
    {
        match turn {
            Turn::Pause(task) => {
                self.work = Work::Runs(task);
                None
            }
            Turn::NeedRecord(task) => {
                self.ask(plan, task);
                None
            }
            Turn::Forked {
                left,
                rest,
                child,
                rec: _,
            } => Some(self.open(plan, left, rest, child)),
            Turn::Arrived { rec, side, out } => {
                self.settle(plan, Ending::At { rec, side, out });
                None
            }
            Turn::Halted(outcome) => {
                self.settle(plan, Ending::Root(outcome));
                None
            }
            Turn::Stuck { .. } => unreachable!(),
            Turn::NoMemory => {
                self.work = Work::Lost;
                None
            }
        }
    }

    /// Runs a task for one turn, and does what the turn asks. Answers the number of a record that
    /// was opened. Its counts are those of the machine's turn, unless memory was wanting.
    pub(crate) fn run(&mut self, plan: &Plan<S>, task: Task) -> Option<u32>
        requires table { IsPassOf plan.now.records.now self.old.pass }
        requires runs { Runs S.terms (view self.old.pass) self.old.taken self.old.counts task }
        ensures pass { IsPassOf plan.now.records.now self.new.pass
            × Stays (view self.old.pass) (view self.new.pass) }
        ensures has { Has S.terms (view self.new.pass) self.new.taken self.new.counts
            self.new.work }
        ensures number { IfSome result (λ k. k < S.terms.records) }
        ensures skipped { SkipsFairly S.terms.records (view self.old.pass) self.old.counts
            (view self.new.pass) self.new.counts }
        ensures counts { UnlessLost self.new.work
            (CountsTask S.terms task self.old.counts self.new.counts) }
    {
        let pace = Pace {
            heartbeat: plan.heartbeat,
            allowed: self.counts.beats < u64::from(plan.forks),
        };
        let ran = run_task(task, plan.code, pace, TURN_STEPS);
        self.counts.add(ran.steps, ran.beats);
        self.follow(plan, ran.turn)
    }

    /// Claims the child of a record, for a worker that has nothing. Answers whether it got it.
    pub(crate) fn claim(&mut self, plan: &Plan<S>, number: u32) -> bool
        requires table { IsPassOf plan.now.records.now self.old.pass }
        requires nothing { self.old.work ≡ Nothing }
        requires has { HasNothing S.terms (view self.old.pass) self.old.taken self.old.counts }
        requires number { number < S.terms.records }
        ensures pass { IsPassOf plan.now.records.now self.new.pass
            × Stays (view self.old.pass) (view self.new.pass) }
        ensures has { Has S.terms (view self.new.pass) self.new.taken self.new.counts
            self.new.work }
        ensures none { MatchBool result ⊤
            (Unclaimable (view self.old.pass) number (view self.new.pass)) }
        ensures counts { self.new.counts ≡ self.old.counts }
    {
        match plan.records.claim(&mut self.pass, number) {
            Some(child) => {
                self.work = Work::Runs(child);
                true
            }
            None => false,
        }
    }

    /// Looks whether the finish was made, for a worker that has nothing. Where it was the worker
    /// has ended.
    pub(crate) fn look(&mut self, plan: &Plan<S>) -> bool
        requires table { IsPassOf plan.now.records.now self.old.pass }
        requires nothing { self.old.work ≡ Nothing }
        requires has { HasNothing S.terms (view self.old.pass) self.old.taken self.old.counts }
        ensures pass { IsPassOf plan.now.records.now self.new.pass
            × Stays (view self.old.pass) (view self.new.pass) }
        ensures has { Has S.terms (view self.new.pass) self.new.taken self.new.counts
            self.new.work }
        ensures unset { MatchBool result ⊤ (SeesUnset (view self.old.pass) (view self.new.pass)) }
        ensures counts { self.new.counts ≡ self.old.counts }
    {
        let is_made = plan.records.finished(&mut self.pass);
        if is_made {
            self.work = Work::Saw;
        }
        is_made
    }
}
