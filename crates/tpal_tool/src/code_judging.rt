// From a code text to a code that is accepted, or a refusal.

ghost use Rattle.std.specs.Prelude.{◌≡◌, ◌≤◌, ℕ, List, IfErr, IfOk, length};
ghost use Rattle.tpal_syntax.specs.Text.{CodeText};
ghost use Rattle.tpal_tool.specs.declared.fetching.TheConstants.{MAX_CODE_BYTES};
ghost use Rattle.tpal_tool.specs.Answering.{IsFaultOf, RefusesCodeText};
ghost use Rattle.tpal_tool.specs.CodeVerdict.{AcceptsCode};

use crate::exec_text::name_at;
use crate::refusal::{CallFault, Refusal};
use std::alloc::Global;
use tpal_asm::{AsmFault, assemble};
use tpal_syntax::Code;
use tpal_verify::{SafeCode, VerifyFault, verify};

/// The code of a code text.
fn assembled(alloc: Global, source: &[u8]) -> Result<Code, CallFault>
    requires { length source.now ≤ MAX_CODE_BYTES }
    ensures code { IfOk result (λ code. CodeText source.now code.tables code.blocks) }
    ensures fault { IfErr result (IsFaultOf (RefusesCodeText source.now) ⊥) }
{
    match assemble(alloc, source) {
        Ok(code) => Ok(code),
        Err(AsmFault::NoMemory) => Err(CallFault::NoMemory),
        Err(fault) => Err(CallFault::Refused(Refusal::Assembly(fault))),
    }
}

/// The code, where the verifier accepts it.
fn verified(alloc: Global, code: Code) -> Result<SafeCode, CallFault>
    ensures accepted { (source : List ℕ)
        → CodeText source code.tables code.blocks
        → IfOk result (AcceptsCode source) }
    ensures fault { (source : List ℕ)
        → CodeText source code.tables code.blocks
        → IfErr result (IsFaultOf (RefusesCodeText source) ⊥) }
{
    match verify(alloc, code) {
        Ok(safe) => Ok(safe),
        Err((code, fault)) => match fault {
            VerifyFault::Broken { rule, block, at } => {
                let name = Vec::from_slice(alloc, name_at(&code, block))?;
                Err(CallFault::Refused(Refusal::Break { name, at, rule }))
            }
            VerifyFault::NoMemory => Err(CallFault::NoMemory),
        },
    }
}

/// The code of a code text of at most the greatest length, which the verifier accepts.
pub fn judge_code(alloc: Global, source: &[u8]) -> Result<SafeCode, CallFault>
    requires { length source.now ≤ MAX_CODE_BYTES }
    ensures accepted { IfOk result (AcceptsCode source.now) }
    ensures fault { IfErr result (IsFaultOf (RefusesCodeText source.now) ⊥) }
{
    let code = assembled(alloc, source)?;
    verified(alloc, code)
}
