// What the codes owe. The functions do nothing: their contracts are the laws.

ghost use Rattle.std.specs.Prelude.{ℕ, ◌≡◌, ◌≤◌, ◌-◌, ◌^◌, false, []};
ghost use Rattle.sum_code.specs.Sum.{sum_below, prints_sum};
ghost use Rattle.sum_code.specs.Wrong.{with_kept_sum, with_no_mark};
ghost use Rattle.tpal_machine.specs.Belongs.{BelongsTo};
ghost use Rattle.tpal_machine.specs.declared.ends.Ending.{Ending};
ghost use Rattle.tpal_machine.specs.Owes.{Owes};
ghost use Rattle.tpal_machine.specs.State.{first_state};

use tpal_syntax::Code;

/// The code owes the sum of the numbers below its count, at every heartbeat and fuel, whichever of
/// its steps are diverted and whichever records it is given.
pub fn sum_is_owed(code: &Code, count: u32)
    requires code { code.now ≡ sum_below count }
    requires some { 1 ≤ count }
    requires few { count ≤ 2 ^ 31 }
    ensures { (heartbeat limit : ℕ)
        → Owes code.now heartbeat false 0 (first_state [] limit) (prints_sum count) }
{
    let _blocks = code.blocks();
}

/// The code enters a promotion point before each number but the first, as long as it isn't
/// diverted.
pub fn each_number_is_a_point(code: &Code, count: u32)
    requires code { code.now ≡ sum_below count }
    requires some { 1 ≤ count }
    requires few { count ≤ 2 ^ 31 }
    ensures { (heartbeat limit : ℕ)
        → Owes code.now heartbeat false (count - 1) (first_state [] limit) (prints_sum count) }
{
    let _blocks = code.blocks();
}

/// A code whose child begins with the left's sum so far owes nothing, where the heartbeat is so
/// short that a beat may come once that sum isn't 0.
pub fn kept_sum_owes_nothing(code: &Code)
    requires { code.now ≡ with_kept_sum }
    ensures belongs { (limit : ℕ) → BelongsTo code.now (first_state [] limit) }
    ensures owes_nothing { (heartbeat least limit : ℕ) (e : Ending)
        → heartbeat ≤ 16
        → ¬ Owes code.now heartbeat false least (first_state [] limit) e }
{
    let _blocks = code.blocks();
}

/// A code whose loop has no mark owes its sum, but with no promotion point.
pub fn unmarked_has_no_point(code: &Code)
    requires { code.now ≡ with_no_mark }
    ensures owed { (heartbeat limit : ℕ)
        → Owes code.now heartbeat false 0 (first_state [] limit) (prints_sum 3) }
    ensures no_point { (heartbeat least limit : ℕ) (e : Ending)
        → Owes code.now heartbeat false least (first_state [] limit) e
        → least ≡ 0 }
{
    let _blocks = code.blocks();
}
