// What a reducer is, and the five of them.

ghost use Rattle.std.specs.Prelude.{◌≡◌, ℤ, FitsSigned};
ghost use Rattle.std.specs.Int.{w64};
ghost use Rattle.tp_value.specs.declared.values.Op.TheVariants.{Add, Mul, Min, Max, Affine};
ghost use Rattle.reduce_ops.specs.Reduction.{combine, unit};
ghost use Rattle.reduce_ops.specs.Laws.{combine-assoc, combine-unit_left, combine-unit_right};
ghost use Rattle.reduce_ops.specs.Laws.{combine_fits, unit_fits};

/// An operator that a loop may reduce by. Its laws speak of numbers of 64 bits.
pub trait Reducer {
    ghost neutral: { ℤ };

    ghost combined: { ℤ → ℤ → ℤ };

    /// The number that changes nothing, on either side.
    fn unit() -> i64
        ensures { result ≡ neutral };

    /// Both numbers as one, the first before the second.
    fn combine(a: i64, b: i64) -> i64
        ensures { result ≡ combined a b };

    ghost associative: { (a b c : ℤ) → FitsSigned w64 a → FitsSigned w64 b → FitsSigned w64 c
        → combined (combined a b) c ≡ combined a (combined b c) };

    ghost unit_left: { (a : ℤ) → FitsSigned w64 a → combined neutral a ≡ a };

    ghost unit_right: { (a : ℤ) → FitsSigned w64 a → combined a neutral ≡ a };

    ghost unit_in_range: { FitsSigned w64 neutral };

    ghost in_range: { (a b : ℤ) → FitsSigned w64 a → FitsSigned w64 b →
        FitsSigned w64 (combined a b) };
}

/// Reduces to the wrapped sum.
#[derive(Clone, Copy)]
pub struct AddOp;

/// Reduces to the wrapped product.
#[derive(Clone, Copy)]
pub struct MulOp;

/// Reduces to the least number.
#[derive(Clone, Copy)]
pub struct MinOp;

/// Reduces to the greatest number.
#[derive(Clone, Copy)]
pub struct MaxOp;

/// Reduces to the composition of maps from x to m * x + c modulo 2^32. The 64 bits of a number are
/// read as the unsigned number m * 2^32 + c, and the first map is applied first.
#[derive(Clone, Copy)]
pub struct AffineOp;

impl Reducer for AddOp {
    ghost neutral = { unit Add };

    ghost combined = { combine Add };

    ghost associative = { λ a b c _ _ _. combine-assoc Add a b c };

    ghost unit_left = { combine-unit_left Add };

    ghost unit_right = { combine-unit_right Add };

    ghost unit_in_range = { unit_fits Add };

    ghost in_range = { combine_fits Add };

    fn unit() -> i64 {
        0
    }

    fn combine(a: i64, b: i64) -> i64 {
        tp_value::add(a, b)
    }
}

impl Reducer for MulOp {
    ghost neutral = { unit Mul };

    ghost combined = { combine Mul };

    ghost associative = { λ a b c _ _ _. combine-assoc Mul a b c };

    ghost unit_left = { combine-unit_left Mul };

    ghost unit_right = { combine-unit_right Mul };

    ghost unit_in_range = { unit_fits Mul };

    ghost in_range = { combine_fits Mul };

    fn unit() -> i64 {
        1
    }

    fn combine(a: i64, b: i64) -> i64 {
        tp_value::mul(a, b)
    }
}

impl Reducer for MinOp {
    ghost neutral = { unit Min };

    ghost combined = { combine Min };

    ghost associative = { λ a b c _ _ _. combine-assoc Min a b c };

    ghost unit_left = { combine-unit_left Min };

    ghost unit_right = { combine-unit_right Min };

    ghost unit_in_range = { unit_fits Min };

    ghost in_range = { combine_fits Min };

    fn unit() -> i64 {
        i64::MAX
    }

    fn combine(a: i64, b: i64) -> i64 {
        if b < a { b } else { a }
    }
}

impl Reducer for MaxOp {
    ghost neutral = { unit Max };

    ghost combined = { combine Max };

    ghost associative = { λ a b c _ _ _. combine-assoc Max a b c };

    ghost unit_left = { combine-unit_left Max };

    ghost unit_right = { combine-unit_right Max };

    ghost unit_in_range = { unit_fits Max };

    ghost in_range = { combine_fits Max };

    fn unit() -> i64 {
        i64::MIN
    }

    fn combine(a: i64, b: i64) -> i64 {
        if b < a { a } else { b }
    }
}

/// One above the greatest multiplier, and one above the greatest addend.
const MODULUS: u64 = 4_294_967_296;

impl Reducer for AffineOp {
    ghost neutral = { unit Affine };

    ghost combined = { combine Affine };

    ghost associative = { λ a b c _ _ _. combine-assoc Affine a b c };

    ghost unit_left = { combine-unit_left Affine };

    ghost unit_right = { combine-unit_right Affine };

    ghost unit_in_range = { unit_fits Affine };

    ghost in_range = { combine_fits Affine };

    fn unit() -> i64 {
        4_294_967_296
    }

    fn combine(a: i64, b: i64) -> i64 {
        let (first, second) = (a.cast_unsigned(), b.cast_unsigned());
        let multiplier = (first / MODULUS) * (second / MODULUS) % MODULUS;
        let addend = ((second / MODULUS) * (first % MODULUS) + second % MODULUS) % MODULUS;
        (multiplier * MODULUS + addend).cast_signed()
    }
}
