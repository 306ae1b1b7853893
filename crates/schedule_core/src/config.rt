// Configurations.

ghost use Rattle.std.specs.Prelude.{◌≡◌};
ghost use Rattle.schedule_core.specs.Standing.{Standing};

use crate::first::{free_records, resting};
use crate::job::Job;
use crate::records::one_more;
use crate::seats::{Cell, Seat, Worker};
use std::alloc::Global;
use std::marker::Model;
use std::mem::replace;
use tp_value::{NoMemory, Outcome, RECORDS_PER_WORKER};
use tpal_machine::{Pace, Task};
use tpal_syntax::Code;

/// What the workers of a run have, what its records hold, and the counts so far.
#[derive(Drop)]
pub struct Config {
    pub(crate) workers: Vec<Worker>,
    pub(crate) cells: Vec<Cell>,
    pub(crate) order: Vec<u32>,
    pub(crate) outcome: Option<Outcome>,
    pub(crate) tasks: u64,
    pub(crate) skipped: u64,
    pub(crate) instructions: u64,
    pub(crate) heartbeat: u64,
    pub(crate) forks: u32,
}

impl Model for Config {
    ghost use Rattle.std.specs.Coded.{codes};
    ghost use Rattle.slices.specs.Holding.{holding_code};
    ghost use Rattle.schedule_core.specs.Standing.{Standing, IsStanding};

    ghost Value = { Standing };

    ghost coded = { Prim.hlevel (codes, holding_code) };

    ghost view = { λ config. record {
      workers = config.workers.items;
      cells = config.cells.items;
      order = config.order.items;
      outcome = config.outcome;
      tasks = config.tasks;
      skipped = config.skipped;
      instructions =
          config.instructions;
      heartbeat = config.heartbeat;
      forks = config.forks;
    } };

    ghost invariant = { λ config. IsStanding
        (record {
          workers = config.workers.items;
          cells = config.cells.items;
          order =
              config.order.items;
          outcome = config.outcome;
          tasks = config.tasks;
          skipped =
              config.skipped;
          instructions = config.instructions;
          heartbeat = config.heartbeat;
          forks =
              config.forks;
        }) };
}

ghost use Rattle.std.specs.Prelude.{◌+◌, min};
ghost use Rattle.schedule_core.specs.Core.{top};

/// Two counts together; a count stays at its type's end.
fn one_count(count: u64, more: u64) -> u64
    ensures { result ≡ min (count + more) top }
{
    count.saturating_add(more)
}

impl Config {
    ghost use Rattle.std.specs.Prelude.{◌≡◌, ◌<◌, length};
    ghost use Rattle.schedule_core.specs.declared.seats.Seat.TheVariants as seat;
    ghost use Rattle.schedule_core.specs.declared.seats.Cell.TheVariants as cell;
    ghost use Rattle.schedule_core.specs.Standing.{worker_at, cell_at, with_seat, with_cell};
    ghost use Rattle.std.specs.Prelude.{IfOk};
    ghost use Rattle.tpal_machine.specs.declared.ends.Ending.{Ending};
    ghost use Rattle.tpal_machine.specs.State.{first_state};
    ghost use Rattle.schedule_core.specs.Apply.{IsJob, IsRunOf, Belongs, FirstOwes, IsSound};
    ghost use Rattle.schedule_core.specs.Core.{first};
    ghost use Rattle.schedule_core.specs.Standing.{stands};

    /// The first configuration of a job: worker 0 runs the first task, the other workers have
    /// nothing, and each of the 64 records for a worker is free.
    #[tactic(auto, using(crate::proofs::Beginning::first_stands, crate::proofs::Beginning::first_run, crate::proofs::Beginning::first_belongs, crate::proofs::Beginning::first_is_sound, crate::proofs::Beginning::first_is_standing, crate::proofs::Beginning::some_worker))]
    pub fn first(alloc: Global, code: &Code, job: Job) -> Result<Config, NoMemory>
        requires job { IsJob code.now job }
        ensures first { IfOk result (λ config.
            stands config ≡ first (first_state job.tables job.fuel)) }
        ensures run { IfOk result (IsRunOf job) }
        ensures belongs { IfOk result (λ config. Belongs code.now (stands config)) }
        ensures sound { (out : Ending)
            → FirstOwes code.now job out
            → IfOk result (λ config. IsSound code.now config out) }
    {
        let Job {
            tables,
            fuel,
            heartbeat,
            workers: count,
            forks,
        } = job;
        let task = Task::first(alloc, code, tables.into_vec(), fuel)?;
        let mut workers = resting(alloc, count)?;
        let cells = free_records(alloc, RECORDS_PER_WORKER * count)?;
        workers[0] = Worker {
            seat: Seat::Running { task, due: false },
            beats: 0,
        };
        Ok(Config {
            workers,
            cells,
            order: Vec::new(alloc),
            outcome: None,
            tasks: 0,
            skipped: 0,
            instructions: 0,
            heartbeat,
            forks,
        })
    }

    ghost use Rattle.std.specs.Prelude.{min, MatchOption, None, Some};
    ghost use Rattle.schedule_core.specs.Core.{top};
    ghost use Rattle.schedule_core.specs.Sound.{total};

    /// The outcome of the run, once it is finished.
    pub fn outcome(&self) -> Option<&Outcome>
        ensures { MatchOption result (self.now.outcome ≡ None)
            (λ outcome. self.now.outcome ≡ Some outcome.now) }
    {
        self.outcome.as_ref()
    }

    /// The records that were opened, each for a new task; as each count it stays at 2^64 - 1.
    pub fn tasks(&self) -> u64
        ensures { result ≡ self.now.tasks }
    {
        self.tasks
    }

    /// The diversions of all workers.
    #[tactic(auto, using(crate::proofs::Beats::beats_more))]
    pub fn beats(&self) -> u64
        ensures { result ≡ min (total (length self.now.workers) (stands self.now).beats) top }
    {
        let mut beats: u64 = 0;
        for worker in &self.workers {
            beats = one_count(beats, worker.beats);
        }
        beats
    }

    /// The questions for a record that were answered with none.
    pub fn skipped(&self) -> u64
        ensures { result ≡ self.now.skipped }
    {
        self.skipped
    }

    /// The instructions that were executed.
    pub fn instructions(&self) -> u64
        ensures { result ≡ self.now.instructions }
    {
        self.instructions
    }

    ghost use Rattle.std.specs.Prelude.{◌≤◌};
    ghost use Rattle.schedule_core.specs.Core.{is_allowed, one_more};

    /// Whether a worker's task may be diverted, and after how many instructions.
    pub(crate) fn pace(&self, worker: u32) -> Pace
        requires { worker < length self.now.workers }
        ensures least { 1 ≤ result.heartbeat }
        ensures heartbeat { result.heartbeat ≡ self.now.heartbeat }
        ensures allowed { result.allowed
            ≡ is_allowed self.now.forks (worker_at self.now.workers worker).beats }
    {
        Pace {
            heartbeat: self.heartbeat,
            allowed: self.workers[worker as usize].beats < u64::from(self.forks),
        }
    }

    /// One instruction more was executed.
    pub(crate) fn count_one(&mut self)
        ensures { self.new ≡ record self.old { instructions = one_more self.old.instructions } }
    {
        self.instructions = one_more(self.instructions);
    }

    /// What a worker has; it has nothing then.
    pub(crate) fn take_seat(&mut self, worker: u32) -> Seat
        requires { worker < length self.now.workers }
        ensures taken { result ≡ (worker_at self.old.workers worker).seat }
        ensures left { self.new ≡ with_seat self.old worker seat.Resting }
    {
        replace(&mut self.workers[worker as usize].seat, Seat::Resting)
    }

    /// A worker has something else.
    pub(crate) fn put_seat(&mut self, worker: u32, seat: Seat)
        requires { worker < length self.now.workers }
        ensures { self.new ≡ with_seat self.old worker seat }
    {
        self.workers[worker as usize].seat = seat;
    }

    /// What a record holds, where there is such a record; it is free then.
    #[tactic(auto, using(crate::proofs::Stands::set_beyond, crate::proofs::Stands::cell_beyond))]
    pub(crate) fn take_cell(&mut self, rec: u32) -> Cell
        ensures taken { result ≡ cell_at self.old.cells rec }
        ensures left { self.new ≡ with_cell self.old rec cell.Free }
    {
        if (rec as usize) < self.cells.len() {
            replace(&mut self.cells[rec as usize], Cell::Free)
        } else {
            Cell::Free
        }
    }

    /// A record holds something else, where there is such a record.
    #[tactic(auto, using(crate::proofs::Stands::set_beyond))]
    pub(crate) fn put_cell(&mut self, rec: u32, cell: Cell)
        ensures { self.new ≡ with_cell self.old rec cell }
    {
        if (rec as usize) < self.cells.len() {
            self.cells[rec as usize] = cell;
        }
    }
}
