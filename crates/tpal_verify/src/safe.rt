// The verifier: which code is accepted, and the first rule that another one breaks.

ghost use Rattle.std.specs.Prelude.{◌≡◌, IfOk, IfErr, OnOk};
ghost use Rattle.tpal_verify.specs.Breaks.{first_break, Accepted};
ghost use Rattle.tpal_verify.specs.Verdict.{IsBreak};

use crate::breaks::first_break;
use crate::fault::VerifyFault;
use std::alloc::Global;
use std::marker::Model;
use tp_value::NoMemory;
use tpal_syntax::Code;

/// A code that is accepted: the least assignment of shapes to its blocks breaks no rule. It is seen
/// as the code.
#[derive(Drop)]
pub struct SafeCode {
    code: Code,
}

impl Model for SafeCode {
    ghost use Rattle.tpal_syntax.specs.Listing.{Listing};
    ghost use Rattle.tpal_verify.specs.Breaks.{Accepted};

    ghost Value = { Listing };

    ghost view = { λ safe. safe.code };

    ghost invariant = { λ safe. Accepted safe.code };
}

impl SafeCode {
    /// The code.
    pub fn code(&self) -> &Code
        ensures code { result.now ≡ self.now }
        ensures accepted { Accepted self.now }
    {
        &self.code
    }
}

/// Verifies a code: Ok where the least assignment of shapes breaks no rule. Else the code comes
/// back with the first break.
pub fn verify(alloc: Global, code: Code) -> Result<SafeCode, (Code, VerifyFault)>
    ensures accepted { OnOk result (Accepted code) }
    ensures code { IfOk result (λ safe. safe ≡ code) }
    ensures back { IfErr result (λ e. e.0 ≡ code) }
    ensures broken { IfErr result (λ e. IsBreak (first_break code) e.1) }
{
    match first_break(alloc, &code) {
        Ok(None) => Ok(SafeCode { code }),
        Ok(Some((block, at, rule))) => Err((code, VerifyFault::Broken { rule, block, at })),
        Err(NoMemory) => Err((code, VerifyFault::NoMemory)),
    }
}
