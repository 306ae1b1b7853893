// Instructions that may stop the task.

ghost use Rattle.std.specs.Bool.{OnTrue, OnFalse};
ghost use Rattle.std.specs.Prelude.{◌≡◌, ℕ, Ok};
ghost use Rattle.beat_count.specs.BeatState.{BeatState};
ghost use Rattle.tpal_machine.specs.Answer.{GivesProgress};
ghost use Rattle.tpal_machine.specs.Effect as effect;
ghost use Rattle.tpal_machine.specs.Ops.Anywhere.{standing, Stays};
ghost use Rattle.tpal_machine.specs.Seen.{state_of, Keeps};
ghost use Rattle.tpal_machine.specs.declared.flow.Progress.TheVariants as ways;

use crate::faults::Fault;
use crate::flow::Progress;
use crate::task::Machine;
use tp_value::{Place, Stop, TrapKind};

/// A stop, unless a join record is left to use.
pub(crate) fn stops(machine: &Machine, stop: Stop) -> Progress
    ensures effect { GivesProgress (effect.stops machine.now.pending stop (state_of machine.now))
        result (state_of machine.now) }
    ensures room { result ≡ ways.NoMemory → ⊥ }
{
    match machine.pending {
        None => Progress::Stops(stop),
        Some(_) => Progress::Fails(Fault::Pending),
    }
}

/// `tick`.
pub(crate) fn tick(machine: &mut Machine) -> Progress
    ensures effect { GivesProgress (effect.tick (state_of machine.old)) result
        (state_of machine.new) }
    ensures room { result ≡ ways.NoMemory → ⊥ }
    ensures kept { Keeps machine.old machine.new }
{
    if machine.fuel.spend() {
        Progress::Goes
    } else {
        stops(machine, Stop::NoFuel)
    }
}

/// `tick` where it is within the limit. Where it answers false nothing has changed.
pub(crate) fn tick_within(machine: &mut Machine) -> bool
    ensures done { OnTrue result
        ((beat : BeatState) (at : ℕ)
        → effect.tick (standing beat at machine.old)
        ≡ Ok (effect.Goes (standing beat at machine.new))) }
    ensures same { OnFalse result (machine.new ≡ machine.old) }
    ensures stays { Stays machine.old machine.new }
    ensures kept { Keeps machine.old machine.new }
{
    if machine.fuel.spent() >= machine.fuel.limit() {
        return false;
    }
    machine.fuel.spend()
}

/// `trap KIND, line, col`.
pub(crate) fn trap(machine: &mut Machine, kind: TrapKind, place: Place) -> Progress
    ensures effect { GivesProgress (effect.trap kind place (state_of machine.old)) result
        (state_of machine.new) }
    ensures room { result ≡ ways.NoMemory → ⊥ }
    ensures kept { Keeps machine.old machine.new }
{
    stops(machine, Stop::Trap(kind, place))
}
