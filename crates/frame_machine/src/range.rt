// Where a range of iterations is cut.

ghost use Rattle.std.specs.Prelude.{◌≡◌, ◌≤ℤ◌, ◌-ℤ◌, pos};
ghost use Rattle.tp_value.specs.declared.limits.TheConstants.{MAX_PAR_LENGTH};
ghost use Rattle.frame_machine.specs.Splitting.{half_up, cut_of};

use tp_value::MAX_PAR_LENGTH;

/// A half of a number, rounded up.
fn half_up(n: i64) -> i64
    requires low { pos 0 ≤ℤ n }
    requires high { n ≤ℤ pos MAX_PAR_LENGTH }
    ensures half { result ≡ half_up n }
    ensures low { pos 0 ≤ℤ result }
    ensures high { result ≤ℤ n }
{
    (n + 1) / 2
}

/// Where the iterations from `next` to below `end` are cut in two: None exactly where there are
/// none; else the upper part has the last half of them, rounded up. It takes no memory.
pub fn split_range(next: i64, end: i64) -> Option<i64>
    requires short { (end -ℤ next) ≤ℤ pos MAX_PAR_LENGTH }
    ensures { result ≡ cut_of next end }
{
    if end <= next {
        return None;
    }
    Some(end - half_up(end - next))
}
