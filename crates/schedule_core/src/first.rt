// The first configuration of a run.

ghost use Rattle.std.specs.Prelude.{◌≡◌, IfOk, replicate};
ghost use Rattle.schedule_core.specs.declared.seats.Cell.TheVariants as cell;
ghost use Rattle.schedule_core.specs.Standing.{no_worker};

use crate::seats::{Cell, Seat, Worker};
use std::alloc::{AllocError, Global};

/// So many workers that have nothing.
#[tactic(auto, using(crate::proofs::Lists::replicate_more))]
pub(crate) fn resting(alloc: Global, count: u32) -> Result<Vec<Worker>, AllocError>
    ensures { IfOk result (λ all. all.items ≡ replicate count no_worker) }
{
    let mut all = Vec::new(alloc);
    for _at in 0..count {
        all.push(Worker {
            seat: Seat::Resting,
            beats: 0,
        })?;
    }
    Ok(all)
}

/// So many free records.
#[tactic(auto, using(crate::proofs::Lists::replicate_more))]
pub(crate) fn free_records(alloc: Global, count: u32) -> Result<Vec<Cell>, AllocError>
    ensures { IfOk result (λ all. all.items ≡ replicate count cell.Free) }
{
    let mut all = Vec::new(alloc);
    for _at in 0..count {
        all.push(Cell::Free)?;
    }
    Ok(all)
}
