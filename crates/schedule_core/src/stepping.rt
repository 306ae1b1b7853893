// One instruction of a worker's task.

ghost use Rattle.std.specs.Prelude.{◌<◌, ◌≤◌, ◌^◌, ◌≡◌, length};
ghost use Rattle.tpal_syntax.specs.Conditions.{IsCode};
ghost use Rattle.tpal_machine.specs.Belonging.{RunsOn};
ghost use Rattle.tpal_machine.specs.Step.{step};
ghost use Rattle.schedule_core.specs.Core.{one_more};
ghost use Rattle.schedule_core.specs.Effects.{least_free, SeatStepped, CanRun, IsStepOnce};
ghost use Rattle.schedule_core.specs.Effects.{WaitsWhereAsked, OnceGives};
ghost use Rattle.schedule_core.specs.Standing.{worker_at};

use crate::config::Config;
use crate::event::ApplyFault;
use crate::records::one_more;
use crate::seats::{Cell, Seat, Worker};
use tpal_machine::{Ending, Fault, Pace, Ran, Rest, Task, Turn, answer, run_task};
use tpal_syntax::Code;

/// The least free record, where one is free.
pub(crate) fn least_free(cells: &[Cell]) -> Option<u32>
    requires { length cells.now < 2 ^ 32 }
    ensures { result ≡ least_free cells.now }
{
    let mut at: u32 = 0;
    for cell in cells {
        if cell.is_free() {
            return Some(at);
        }
        at += 1;
    }
    None
}

/// What one instruction of a task came to.
#[derive(Drop)]
pub enum Once {
    Goes(Task),
    Beats(Task),
    Ends(Ending),
    Asks(Task),
    Forks {
        rec: u32,
        on: Task,
        child: Task,
        rest: Rest,
    },
    Stuck(Fault),
    NoMemory,
}

/// One instruction of a task.
fn step_once(task: Task, code: &Code, pace: Pace) -> Once
    requires heartbeat { 1 ≤ pace.heartbeat }
    requires runs { RunsOn code.now task }
    requires right { IsCode code.now.tables code.now.blocks }
    ensures step { IsStepOnce (step code.now pace.heartbeat pace.allowed task) result }
    ensures waits { WaitsWhereAsked result }
{
    let Ran {
        turn,
        steps: _,
        beats,
    } = run_task(task, code, pace, 1);
    match turn {
        Turn::Pause(task) => {
            if beats == 0 {
                Once::Goes(task)
            } else {
                Once::Beats(task)
            }
        }
        Turn::NeedRecord(task) => Once::Asks(task),
        Turn::Forked {
            left,
            rest,
            child,
            rec,
        } => Once::Forks {
            rec,
            on: left,
            child,
            rest,
        },
        Turn::Arrived { rec, side, out } => Once::Ends(Ending::At { rec, side, out }),
        Turn::Halted(outcome) => Once::Ends(Ending::Root(outcome)),
        Turn::Stuck {
            fault,
            block: _,
            at: _,
        } => Once::Stuck(fault),
        Turn::NoMemory => Once::NoMemory,
    }
}

/// What one instruction of a worker's task gives, after it was counted.
fn after_once(config: Config, worker: u32, due: bool, once: Once) -> Result<Config, ApplyFault>
    requires worker { worker < length config.workers }
    requires waits { WaitsWhereAsked once }
    ensures { OnceGives (record config { instructions = one_more config.instructions }) worker due
        once result }
{
    let mut config = config;
    config.count_one();
    match once {
        Once::Goes(task) => config.put_seat(worker, Seat::Running { task, due }),
        Once::Beats(task) => config.divert(worker, task),
        Once::Ends(ending) => config.put_seat(worker, Seat::Ended(ending)),
        Once::Asks(task) => config.give(worker, task),
        Once::Forks {
            rec,
            on,
            child,
            rest,
        } => config.put_seat(
            worker,
            Seat::Forked {
                rec,
                on,
                child,
                rest,
            },
        ),
        Once::Stuck(fault) => return Err(ApplyFault::Stuck(fault)),
        Once::NoMemory => return Err(ApplyFault::NoMemory),
    }
    Ok(config)
}

/// The worker's task executes one instruction.
pub(crate) fn step(config: Config, code: &Code, worker: u32) -> Result<Config, ApplyFault>
    requires worker { worker < length config.workers }
    requires runs { CanRun code.now (worker_at config.workers worker).seat }
    requires right { IsCode code.now.tables code.now.blocks }
    ensures { SeatStepped code.now config worker (worker_at config.workers worker).seat result }
{
    let mut config = config;
    let pace = config.pace(worker);
    match config.take_seat(worker) {
        Seat::Running { task, due } => {
            let once = step_once(task, code, pace);
            after_once(config, worker, due, once)
        }
        Seat::Resting | Seat::Forked { .. } | Seat::Ended(_) | Seat::Holding(_) => Ok(config),
    }
}

impl Config {
    ghost use Rattle.std.specs.Prelude.{◌≡◌, ◌<◌, length, IsSome};
    ghost use Rattle.schedule_core.specs.Effects.{diverted_on, given_on, least_free};

    /// The worker's task was diverted.
    fn divert(&mut self, worker: u32, task: Task)
        requires worker { worker < length self.now.workers }
        ensures { self.new ≡ diverted_on self.old worker task }
    {
        let beats = one_more(self.workers[worker as usize].beats);
        self.workers[worker as usize] = Worker {
            seat: Seat::Running { task, due: true },
            beats,
        };
    }

    /// The worker's task goes on with the least free record, or with none.
    fn give(&mut self, worker: u32, task: Task)
        requires worker { worker < length self.now.workers }
        requires waits { IsSome task.waiting }
        ensures { self.new ≡ given_on self.old worker task (least_free self.old.cells) }
    {
        let free = least_free(&self.cells);
        self.put_seat(
            worker,
            Seat::Running {
                task: answer(task, free),
                due: false,
            },
        );
        match free {
            None => self.skipped = one_more(self.skipped),
            Some(rec) => self.put_cell(rec, Cell::Taken(worker)),
        }
    }
}
