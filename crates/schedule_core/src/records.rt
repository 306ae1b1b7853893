// The events of records: one is opened, its child is claimed, and it is freed.

ghost use Rattle.std.specs.Prelude.{◌<◌, ◌≡◌, length, IfOk};
ghost use Rattle.tpal_machine.specs.Belongs.{RestBelongsTo, SideBelongsTo};
ghost use Rattle.tpal_machine.specs.Merge.{AreSides, joined};
ghost use Rattle.schedule_core.specs.Core.{one_more, without};
ghost use Rattle.schedule_core.specs.Effects.{opened, claimed, freed, merged_seat, CanMerge};
ghost use Rattle.schedule_core.specs.Standing.{worker_at, cell_at};

use crate::config::Config;
use crate::seats::{Cell, Seat};
use std::alloc::AllocError;
use tp_value::NoMemory;
use tpal_machine::{Ending, Merged, Rest, Side, merge};
use tpal_syntax::Code;

/// One more; a count stays at its type's end.
pub(crate) fn one_more(count: u64) -> u64
    ensures { result ≡ one_more count }
{
    count.saturating_add(1)
}

/// The worker, whose task has just forked, opens the record.
pub(crate) fn open(config: Config, worker: u32) -> Result<Config, AllocError>
    requires worker { worker < length config.workers }
    ensures { IfOk result
        (λ after. after ≡ opened config worker (worker_at config.workers worker).seat) }
{
    let mut config = config;
    match config.take_seat(worker) {
        Seat::Forked {
            rec,
            on,
            child,
            rest,
        } => {
            config.put_seat(
                worker,
                Seat::Running {
                    task: on,
                    due: false,
                },
            );
            config.put_cell(
                rec,
                Cell::Opened {
                    rest,
                    child: Some(child),
                    left: None,
                    right: None,
                },
            );
            config.order.push(rec)?;
            config.tasks = one_more(config.tasks);
            Ok(config)
        }
        Seat::Resting | Seat::Running { .. } | Seat::Ended(_) | Seat::Holding(_) => Ok(config),
    }
}

/// The worker, which has nothing, takes the child of an open record.
pub(crate) fn claim(config: Config, worker: u32, rec: u32) -> Config
    requires worker { worker < length config.workers }
    ensures { result ≡ claimed config worker rec (cell_at config.cells rec) }
{
    let mut config = config;
    match config.take_cell(rec) {
        Cell::Opened {
            rest,
            child,
            left,
            right,
        } => match child {
            None => config,
            Some(task) => {
                config.put_seat(worker, Seat::Running { task, due: false });
                config.put_cell(
                    rec,
                    Cell::Opened {
                        rest,
                        child: None,
                        left,
                        right,
                    },
                );
                config
            }
        },
        Cell::Free | Cell::Taken(_) | Cell::Met { .. } => config,
    }
}

/// What a worker has with what a rest and its two sides come to.
fn merged(rest: Rest, left: Side, right: Side, code: &Code) -> Result<Seat, NoMemory>
    requires sides { AreSides code.now rest left right }
    requires rest { RestBelongsTo code.now rest }
    requires left { SideBelongsTo code.now left }
    requires right { SideBelongsTo code.now right }
    ensures { IfOk result (λ seat. seat ≡ merged_seat (joined code.now rest left right)) }
{
    match merge(rest, left, right, code)? {
        Merged::Runs(task) => Ok(Seat::Running { task, due: false }),
        Merged::Arrived { rec, side, out } => Ok(Seat::Ended(Ending::At { rec, side, out })),
        Merged::Halted(outcome) => Ok(Seat::Ended(Ending::Root(outcome))),
    }
}

/// Takes a record out of a list.
fn remove(order: &mut Vec<u32>, rec: u32)
    ensures { order.new.items ≡ without rec order.old.items }
{
    order.retain(move |other| *other != rec);
}

/// The worker frees the record that both sides have met.
pub(crate) fn free(config: Config, code: &Code, worker: u32) -> Result<Config, NoMemory>
    requires worker { worker < length config.workers }
    requires fit { CanMerge code.now config (worker_at config.workers worker).seat }
    ensures { IfOk result
        (λ after. after ≡ freed config worker code.now (worker_at config.workers worker).seat) }
{
    let mut config = config;
    match config.take_seat(worker) {
        Seat::Holding(rec) => match config.take_cell(rec) {
            Cell::Met {
                worker: _,
                rest,
                left,
                right,
            } => {
                let seat = merged(rest, left, right, code)?;
                config.put_seat(worker, seat);
                remove(&mut config.order, rec);
                Ok(config)
            }
            Cell::Free | Cell::Taken(_) | Cell::Opened { .. } => Ok(config),
        },
        Seat::Resting | Seat::Running { .. } | Seat::Forked { .. } | Seat::Ended(_) => Ok(config),
    }
}
