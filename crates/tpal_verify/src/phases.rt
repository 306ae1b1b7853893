// What the last instructions of a block were.

ghost use Rattle.std.specs.Prelude.{◌≡◌};
ghost use Rattle.tpal_verify.specs.Walk.{compared, after_test, after_other, after_calc};

use tpal_syntax::{Alu, Value};

/// What the last instructions were, as far as the rules look back.
#[derive(Clone, Copy, PartialEq, Eq, Debug)]
pub enum Phase {
    /// Nothing of note.
    Calm,
    /// A test of a register against nil.
    Compared {
        /// The register.
        register: u8,
        /// The one that holds the answer.
        truth: u8,
    },
    /// A question for a record.
    Asked {
        /// The register of the answer.
        record: u8,
        /// The join target.
        target: u32,
    },
    /// That, and the test of the answer against nil.
    Tested {
        /// The register of the answer.
        record: u8,
        /// The one that holds whether it is nil.
        truth: u8,
        /// The join target.
        target: u32,
    },
    /// A record was given, and is to be forked under.
    Given {
        /// Its register.
        record: u8,
        /// The join target.
        target: u32,
    },
}

/// What a test of `left` against nil, answered in `x`, makes of a phase; r31 isn't looked at.
fn compared(x: u8, left: u8) -> Phase
    ensures { result ≡ compared x left }
{
    if x == left || left == 31 {
        Phase::Calm
    } else {
        Phase::Compared {
            register: left,
            truth: x,
        }
    }
}

/// The phase behind a test of `left` against nil.
fn after_test(phase: Phase, x: u8, left: u8) -> Phase
    ensures { result ≡ after_test phase x left }
{
    match phase {
        Phase::Calm => compared(x, left),
        Phase::Compared { .. } => compared(x, left),
        Phase::Asked { record, target } => Phase::Tested {
            record,
            truth: x,
            target,
        },
        Phase::Tested { .. } => compared(x, left),
        Phase::Given { .. } => phase,
    }
}

/// The phase behind any other move, calculation, load or store.
pub(crate) fn after_other(phase: Phase) -> Phase
    ensures { result ≡ after_other phase }
{
    match phase {
        Phase::Calm => Phase::Calm,
        Phase::Compared { .. } => Phase::Calm,
        Phase::Asked { .. } => Phase::Calm,
        Phase::Tested { .. } => Phase::Calm,
        Phase::Given { .. } => phase,
    }
}

/// The phase behind a calculation of `left` and an operand.
pub(crate) fn after_calc(phase: Phase, x: u8, left: u8, alu: Alu, right: Value) -> Phase
    ensures { result ≡ after_calc phase x left alu right }
{
    match alu {
        Alu::Eq => match right {
            Value::Nil => after_test(phase, x, left),
            Value::Reg(_) | Value::Int(_) | Value::Label(_) => after_other(phase),
        },
        Alu::Add
        | Alu::Sub
        | Alu::Mul
        | Alu::Div
        | Alu::Rem
        | Alu::Ne
        | Alu::Lt
        | Alu::Le
        | Alu::Min
        | Alu::Max
        | Alu::Affine => after_other(phase),
    }
}
