// One event.

ghost use Rattle.std.specs.Prelude.{◌≡◌, true, IfOk};
ghost use Rattle.tpal_syntax.specs.Conditions.{IsCode};
ghost use Rattle.tpal_machine.specs.declared.ends.Ending.{Ending};
ghost use Rattle.schedule_core.specs.Apply.{Belongs, SidesFit, IsEnabled, Steps, Gives};
ghost use Rattle.schedule_core.specs.Apply.{WhereNotEnabled, WhereStuck, IsStuckAt, IsSound};
ghost use Rattle.schedule_core.specs.Effects.{can};
ghost use Rattle.schedule_core.specs.Standing.{SameRun, IsStanding, stands};

use crate::config::Config;
use crate::enabled::is_enabled;
use crate::ends::{arrive, finish};
use crate::event::{ApplyFault, Event};
use crate::records::{claim, free, open};
use crate::stepping::step;
use tpal_syntax::Code;

/// An event that can happen.
#[tactic(auto, using(crate::proofs::Events::gives_step, crate::proofs::Events::gives_open, crate::proofs::Events::gives_claim, crate::proofs::Events::gives_arrive, crate::proofs::Events::gives_free, crate::proofs::Events::gives_finish, crate::proofs::Asked::worker_is, crate::proofs::Asked::can_run, crate::proofs::Asked::can_merge))]
fn happen(config: Config, code: &Code, event: Event) -> Result<Config, ApplyFault>
    requires can { can config event ≡ true }
    requires right { IsCode code.now.tables code.now.blocks }
    requires belongs { Belongs code.now (stands config) }
    requires sides { SidesFit code.now config event }
    ensures { Gives code.now config event result }
{
    match event {
        Event::Step(worker) => step(config, code, worker),
        Event::Open(worker) => match open(config, worker) {
            Ok(after) => Ok(after),
            Err(_) => Err(ApplyFault::NoMemory),
        },
        Event::Claim(worker, rec) => Ok(claim(config, worker, rec)),
        Event::Arrive(worker) => Ok(arrive(config, worker)),
        Event::Free(worker) => match free(config, code, worker) {
            Ok(after) => Ok(after),
            Err(_) => Err(ApplyFault::NoMemory),
        },
        Event::Finish(worker) => Ok(finish(config, worker)),
    }
}

#[tactic(auto, using(crate::proofs::Enabling::not_enabled))]
fn tried(config: Config, code: &Code, event: Event) -> Result<Config, ApplyFault>
    requires right { IsCode code.now.tables code.now.blocks }
    requires belongs { Belongs code.now (stands config) }
    requires sides { SidesFit code.now config event }
    ensures { Gives code.now config event result }
{
    if is_enabled(&config, event) {
        happen(config, code, event)
    } else {
        Err(ApplyFault::NotEnabled(config))
    }
}

/// What is true of every configuration.
pub(crate) fn known(config: &Config)
    ensures { IsStanding config.now }
{
    let _heartbeat = config.heartbeat;
}

/// What an event makes of a configuration. A worker's task that asks for a record is given the
/// least free one, or none where none is free. On a sound configuration no instruction is stuck.
#[tactic(auto, using(crate::proofs::Asked::given_step, crate::proofs::Asked::given_kept, crate::proofs::Asked::given_belongs, crate::proofs::Asked::given_refused, crate::proofs::Asked::given_stuck))]
pub fn apply(config: Config, code: &Code, event: Event) -> Result<Config, ApplyFault>
    requires belongs { Belongs code.now (stands config) }
    requires sides { SidesFit code.now config event }
    ensures step { IfOk result (Steps code.now config event) }
    ensures kept { IfOk result (SameRun config) }
    ensures belongs { IfOk result (λ after. Belongs code.now (stands after)) }
    ensures not_enabled { WhereNotEnabled result (λ same.
        (same ≡ config) × (IsEnabled code.now config event → ⊥)) }
    ensures stuck { WhereStuck result (IsStuckAt code.now config event) }
    ensures sound { (out : Ending)
        → IsSound code.now config out
        → IfOk result (λ after. IsSound code.now after out) }
    ensures never_stuck { (out : Ending) → IsSound code.now config out →
        WhereStuck result (λ fault. ⊥) }
{
    let _blocks = code.blocks();
    known(&config);
    tried(config, code, event)
}
