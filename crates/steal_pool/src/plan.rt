// What all workers of a run share.

ghost use Rattle.std.specs.Prelude.{◌≡◌, ◌*◌, ◌≤◌};
ghost use Rattle.tp_value.specs.declared.limits.TheConstants.{MAX_BEAT, MAX_FORKS};
ghost use Rattle.join_records.specs.Passes.{record_count};

use crate::load::{RunTerms, TaskLoad};
use crossbeam_utils::sync::EventCount;
use join_records::{Load, Records};
use tpal_syntax::Code;

/// What all workers of a run share: the code, the table of records, and how work is shared out.
#[derive(Drop)]
pub(crate) struct Plan<'a, S: RunTerms>
where
    TaskLoad<S>: Load,
{
    pub(crate) code: &'a Code,
    pub(crate) records: &'a Records<TaskLoad<S>>,
    /// The instructions between two beats of a task.
    pub(crate) heartbeat: u64,
    /// The beats that each worker may have.
    pub(crate) forks: u32,
    /// The workers that sleep until a number is handed on or a worker has ended.
    pub(crate) sleepers: &'a EventCount,
    pub ghost code_is: { code.now ≡ S.terms.code },
    pub ghost beat_is: { (heartbeat ≡ S.terms.heartbeat)
        × (1 ≤ heartbeat)
        × (heartbeat ≤ MAX_BEAT) },
    pub ghost forks_is: { (forks ≡ S.terms.forks) × (forks ≤ MAX_FORKS) },
    pub ghost table_is: { record_count records.now ≡ S.terms.records },
}
