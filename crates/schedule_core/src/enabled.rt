// Which events can happen.

ghost use Rattle.std.specs.Prelude.{◌≡◌};
ghost use Rattle.schedule_core.specs.Effects.{can, worker_of, fits, is_unclaimed, has_met};
ghost use Rattle.schedule_core.specs.Standing.{cell_at};

use crate::config::Config;
use crate::event::Event;
use crate::seats::{Cell, Seat};

/// The worker of an event.
pub(crate) fn worker_of(event: Event) -> u32
    ensures { result ≡ worker_of event }
{
    match event {
        Event::Step(worker)
        | Event::Open(worker)
        | Event::Claim(worker, _)
        | Event::Arrive(worker)
        | Event::Free(worker)
        | Event::Finish(worker) => worker,
    }
}

/// Whether a record is open with a child that no worker has claimed.
#[tactic(auto, using(crate::proofs::Stands::cell_beyond))]
fn is_unclaimed(cells: &[Cell], rec: u32) -> bool
    ensures { result ≡ is_unclaimed (cell_at cells.now rec) }
{
    (rec as usize) < cells.len() && cells[rec as usize].is_unclaimed()
}

/// Whether both sides have met the record that a worker has.
#[tactic(auto, using(crate::proofs::Stands::cell_beyond))]
fn has_met(cells: &[Cell], seat: &Seat) -> bool
    ensures { result ≡ has_met cells.now seat.now }
{
    match seat {
        Seat::Holding(rec) => (*rec as usize) < cells.len() && cells[*rec as usize].is_met(),
        Seat::Resting | Seat::Running { .. } | Seat::Forked { .. } | Seat::Ended(_) => false,
    }
}

/// Whether a worker's seat and the records are as an event asks.
fn fits(cells: &[Cell], event: Event, seat: &Seat) -> bool
    ensures { result ≡ fits cells.now event seat.now }
{
    match event {
        Event::Step(_) => seat.runs(),
        Event::Open(_) => seat.has_forked(cells.len()),
        Event::Claim(_, rec) => seat.rests() && is_unclaimed(cells, rec),
        Event::Arrive(_) => seat.comes_to_record(),
        Event::Free(_) => has_met(cells, seat),
        Event::Finish(_) => seat.ends_run(),
    }
}

/// Whether an event can happen.
pub(crate) fn is_enabled(config: &Config, event: Event) -> bool
    ensures { result ≡ can config.now event }
{
    let worker = worker_of(event) as usize;
    worker < config.workers.len() && fits(&config.cells, event, &config.workers[worker].seat)
}
