// Laws of what a task will end with. The functions do nothing: their contracts are the laws, for
// those who reason about codes.

ghost use Rattle.std.specs.Prelude.{◌≡◌, ◌+◌, ℕ, Bool, true, false, [], Option, None, IsSome};
ghost use Rattle.tpal_machine.specs.Belonging.{RunsOn, WaitsOn, IsStepOf, IsJoinedOf};
ghost use Rattle.tpal_machine.specs.Belongs.{RestBelongsTo, SideBelongsTo};
ghost use Rattle.tpal_machine.specs.declared.ends.Ending.{Ending};
ghost use Rattle.tpal_machine.specs.declared.ends.Side.{Side};
ghost use Rattle.tpal_machine.specs.Effect.{answered};
ghost use Rattle.tpal_machine.specs.Keeping.{StepKeeps, TurnKeeps, AnsweredFrom, JoinedKeeps};
ghost use Rattle.tpal_machine.specs.Keeping.{IsUndiverted};
ghost use Rattle.tpal_machine.specs.Merge.{AreSides, MergeOf, Joined, joined};
ghost use Rattle.tpal_machine.specs.Owed.{owing, TurnOwes};
ghost use Rattle.tpal_machine.specs.Owes.{Owes};
ghost use Rattle.tpal_machine.specs.RestState.{RestState};
ghost use Rattle.tpal_machine.specs.Sample.{two_and_three, prints_five};
ghost use Rattle.tpal_machine.specs.Serial.{OwesSerially, IsUnmarked};
ghost use Rattle.tpal_machine.specs.State.{State, first_state};
ghost use Rattle.tpal_machine.specs.Step.{step};
ghost use Rattle.tpal_machine.specs.Turn.{turn_of, turned_once, turned_on, is_allowed_after};
ghost use Rattle.tpal_machine.specs.Turn.{ends_here, Pauses};
ghost use Rattle.tpal_machine.specs.Within.{NextOwes, OwesInSteps};

use tpal_syntax::Code;

/// A task owes at most one ending, whatever is promoted, and however many promotion points it is
/// known to enter.
pub fn one_ending(code: &Code)
    ensures { (heartbeat : ℕ) (due : Bool) (n m : ℕ) (state : State) (e f : Ending)
        → Owes code.now heartbeat due n state e
        → Owes code.now heartbeat due m state f
        → e ≡ f }
{}

/// A task owes an ending exactly where it owes it within some number of steps.
pub fn owes_in_steps(code: &Code)
    ensures within { (heartbeat : ℕ) (due : Bool) (n : ℕ) (state : State) (e : Ending)
        → Owes code.now heartbeat due n state e
        → OwesInSteps code.now heartbeat due state e }
    ensures owes { (heartbeat : ℕ) (due : Bool) (state : State) (e : Ending)
        → OwesInSteps code.now heartbeat due state e
        → Owes code.now heartbeat due 0 state e }
{
    let _blocks = code.blocks();
}

/// A task that owes an ending whatever is promoted owes it where nothing is.
pub fn owes_serially(code: &Code)
    ensures { (heartbeat n : ℕ) (state : State) (e : Ending)
        → Owes code.now heartbeat false n state e
        → OwesSerially code.now heartbeat n state e }
{}

/// Where no mark ever stands, a task that owes an ending where nothing is promoted owes it.
pub fn owes_unmarked(code: &Code)
    ensures { (heartbeat n : ℕ) (state : State) (e : Ending)
        → OwesSerially code.now heartbeat n state e
        → IsUnmarked code.now heartbeat state
        → Owes code.now heartbeat false n state e }
{}

/// A code written by hand owes what it prints, at every heartbeat and fuel.
pub fn sum_owes(code: &Code)
    requires { code.now ≡ two_and_three }
    ensures { (heartbeat limit : ℕ)
        → Owes code.now heartbeat false 0 (first_state [] limit) prints_five }
{
    let _blocks = code.blocks();
}

/// What a task owes after one step, whichever it is: it is never stuck, and strays never.
pub fn owes_after_step(code: &Code)
    ensures { (heartbeat n : ℕ) (due : Bool) (state : State) (e : Ending)
        → Owes code.now heartbeat due n state e
        → NextOwes code.now heartbeat (owing code.now heartbeat) due state e
        (step code.now heartbeat true state) }
{
    let _blocks = code.blocks();
}

/// What a task owes after a turn, whether a diversion is allowed in it or not.
pub fn owes_after_turn(code: &Code)
    ensures { (budget heartbeat n : ℕ) (allowed due : Bool) (state : State) (e : Ending)
        → Owes code.now heartbeat due n state e
        → TurnOwes code.now (owing code.now heartbeat) due e
        (turn_of budget code.now heartbeat allowed state) }
{
    let _blocks = code.blocks();
}

/// A task that owes an ending, and is known to enter so many promotion points, owes it.
pub fn owes_at_all(code: &Code)
    ensures { (heartbeat n : ℕ) (due : Bool) (state : State) (e : Ending)
        → Owes code.now heartbeat due n state e
        → Owes code.now heartbeat due 0 state e }
{}

/// A step that isn't diverted, by the one that may be.
pub fn undiverted_step(code: &Code)
    ensures { (heartbeat : ℕ) (state : State)
        → IsUndiverted (step code.now heartbeat true state) (step code.now heartbeat false state) }
{}

/// What a step and a turn keep.
pub fn kept_by_steps(code: &Code)
    ensures step { (heartbeat : ℕ) (allowed : Bool) (state : State)
        → StepKeeps heartbeat state (step code.now heartbeat allowed state) }
    ensures turn { (budget heartbeat : ℕ) (allowed : Bool) (state : State)
        → TurnKeeps heartbeat state (turn_of budget code.now heartbeat allowed state) }
{}

/// What an answer keeps of a task that asked.
pub fn kept_by_answers()
    ensures { (rec : Option ℕ) (waits : State)
        → IsSome waits.waiting
        → waits.pending ≡ None
        → AnsweredFrom rec waits (answered rec waits) }
{}

/// What a merge keeps, and that what a rest and two sides merge to is what they are joined to.
pub fn kept_by_merges(code: &Code)
    ensures keeps { (rest : RestState) (left right : Side)
        → JoinedKeeps rest (joined code.now rest left right) }
    ensures joined { (rest : RestState) (left right : Side) (both : Joined)
        → MergeOf code.now rest left right both
        → joined code.now rest left right ≡ both }
    ensures merges { (rest : RestState) (left right : Side)
        → AreSides code.now rest left right
        → RestBelongsTo code.now rest
        → SideBelongsTo code.now left
        → SideBelongsTo code.now right
        → MergeOf code.now rest left right (joined code.now rest left right) }
{}

/// What a step, an answer and a merge give belongs to the code.
pub fn belongs_after(code: &Code)
    ensures step { (heartbeat : ℕ) (allowed : Bool) (state : State)
        → RunsOn code.now state
        → IsStepOf code.now (step code.now heartbeat allowed state) }
    ensures answered { (rec : Option ℕ) (waits : State)
        → WaitsOn code.now waits
        → RunsOn code.now (answered rec waits) }
    ensures joined { (rest : RestState) (left right : Side)
        → RestBelongsTo code.now rest
        → SideBelongsTo code.now left
        → SideBelongsTo code.now right
        → IsJoinedOf code.now (joined code.now rest left right) }
{
    let _blocks = code.blocks();
}

/// A turn of one instruction is one step; one that pauses goes on as another turn does, which has
/// the rest of its budget; and a turn of a task of the code pauses only once its budget is used up.
pub fn turns_by_steps(code: &Code)
    ensures once { (heartbeat : ℕ) (allowed : Bool) (state : State)
        → turn_of 1 code.now heartbeat allowed state
        ≡ turned_once (step code.now heartbeat allowed state) state }
    ensures on { (first more heartbeat : ℕ) (allowed : Bool) (beats : ℕ) (state after : State)
        → turn_of first code.now heartbeat allowed state ≡ ends_here first beats (Pauses after)
        → turn_of (first + more) code.now heartbeat allowed state
        ≡ turned_on first beats
        (turn_of more code.now heartbeat (is_allowed_after allowed beats) after) }
    ensures pauses { (budget heartbeat : ℕ) (allowed : Bool) (state after : State)
        → RunsOn code.now state
        → (turn_of budget code.now heartbeat allowed state).stopped ≡ Pauses after
        → (turn_of budget code.now heartbeat allowed state).steps ≡ budget }
{
    let _blocks = code.blocks();
}
