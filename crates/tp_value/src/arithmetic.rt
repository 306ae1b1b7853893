// Calculations on numbers of 64 bits. They wrap: a result is the whole-number one, brought into the
// range modulo 2^64. None of them takes memory.

ghost use Rattle.std.specs.Prelude.{◌≡◌, ℤ, pos, ◌+ℤ◌, ◌-ℤ◌, ◌*ℤ◌, int_div, int_rem, int_lt};
ghost use Rattle.std.specs.Prelude.{int_le, not};
ghost use Rattle.std.specs.Ordering.{int_eq};
ghost use Rattle.std.specs.Option.{SomeIff};
ghost use Rattle.tp_value.specs.Number.{wrapped, truth, IsDivisor};

/// The wrapped sum.
pub fn add(a: i64, b: i64) -> i64
    ensures { result ≡ wrapped (a +ℤ b) }
{
    a.wrapping_add(b)
}

/// The wrapped difference.
pub fn sub(a: i64, b: i64) -> i64
    ensures { result ≡ wrapped (a -ℤ b) }
{
    a.wrapping_sub(b)
}

/// The wrapped product.
pub fn mul(a: i64, b: i64) -> i64
    ensures { result ≡ wrapped (a *ℤ b) }
{
    a.wrapping_mul(b)
}

/// The quotient, truncated toward zero and wrapped; None exactly where the divisor is 0.
/// So the least number divided by -1 is itself.
pub fn div(a: i64, b: i64) -> Option<i64>
    ensures { SomeIff result (IsDivisor b) (wrapped (int_div a b)) }
{
    match b {
        0 => None,
        -1 => Some(sub(0, a)),
        _ => Some(a / b),
    }
}

/// The remainder of the truncated quotient; None exactly where the divisor is 0.
pub fn rem(a: i64, b: i64) -> Option<i64>
    ensures { SomeIff result (IsDivisor b) (wrapped (int_rem a b)) }
{
    if b == 0 {
        None
    } else {
        Some(a.wrapping_rem(b))
    }
}

/// 1 where the first is below the second, else 0.
pub fn lt(a: i64, b: i64) -> i64
    ensures { result ≡ truth (int_lt a b) }
{
    i64::from(a < b)
}

/// 1 where the first is at most the second, else 0.
pub fn le(a: i64, b: i64) -> i64
    ensures { result ≡ truth (int_le a b) }
{
    i64::from(a <= b)
}

/// 1 where both are the same, else 0.
pub fn eq(a: i64, b: i64) -> i64
    ensures { result ≡ truth (int_eq a b) }
{
    i64::from(a == b)
}

/// 1 where they differ, else 0.
pub fn ne(a: i64, b: i64) -> i64
    ensures { result ≡ truth (not (int_eq a b)) }
{
    i64::from(a != b)
}
