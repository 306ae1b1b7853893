// The end of a task: it arrives at its record, or ends the run.

ghost use Rattle.std.specs.Prelude.{◌<◌, ◌≡◌, length};
ghost use Rattle.schedule_core.specs.Effects.{arrived, finished};
ghost use Rattle.schedule_core.specs.Standing.{worker_at};

use crate::config::Config;
use crate::seats::Seat;
use tpal_machine::{Ending, SideName};

/// The worker's task, which ended at a record, arrives there.
pub(crate) fn arrive(config: Config, worker: u32) -> Config
    requires worker { worker < length config.workers }
    ensures { result ≡ arrived config worker (worker_at config.workers worker).seat }
{
    let mut config = config;
    match config.take_seat(worker) {
        Seat::Ended(Ending::At { rec, side, out }) => {
            let found = config.take_cell(rec);
            let (cell, seat) = match side {
                SideName::Left => found.met_left(worker, rec, out),
                SideName::Right => found.met_right(worker, rec, out),
            };
            config.put_cell(rec, cell);
            config.put_seat(worker, seat);
            config
        }
        Seat::Ended(Ending::Root(_))
        | Seat::Resting
        | Seat::Running { .. }
        | Seat::Forked { .. }
        | Seat::Holding(_) => config,
    }
}

/// The worker's task, which ended the run, gives its outcome.
pub(crate) fn finish(config: Config, worker: u32) -> Config
    requires worker { worker < length config.workers }
    ensures { result ≡ finished config worker (worker_at config.workers worker).seat }
{
    let mut config = config;
    match config.take_seat(worker) {
        Seat::Ended(Ending::Root(outcome)) => {
            config.outcome = Some(outcome);
            config
        }
        Seat::Ended(Ending::At { .. })
        | Seat::Resting
        | Seat::Running { .. }
        | Seat::Forked { .. }
        | Seat::Holding(_) => config,
    }
}
