// From a source text to a program that can be compiled, or a refusal.

ghost use Rattle.std.specs.Prelude.{◌≡◌, ◌-◌, ◌<◌, ◌≤◌, ◌^◌, ℕ, List, IfErr, IfOk, length};
ghost use Rattle.scene_laws.specs.Count.{blocks_of_program};
ghost use Rattle.loop_rules.specs.Unbroken.{IsResolved};
ghost use Rattle.loop_check.specs.Unbroken.{NoneBroken};
ghost use Rattle.tpal_tool.specs.Answering.{IsFaultOf, RefusesSource};
ghost use Rattle.tpal_tool.specs.Parsing.{ParsesAs};
ghost use Rattle.tpal_tool.specs.Verdict.{AcceptsOnly};

use crate::parsing::parse_source;
use crate::refusal::{CallFault, Refusal};
use block_lower::{block_count, program_is_built};
use loop_check::{Checked, check};
use loop_rules::{Resolved, RuleFault, resolve};
use loop_syntax::Program;
use std::alloc::Global;
use tp_value::{MAX_BLOCKS, MAX_SOURCE_BYTES};

/// A program whose rules on names, limits, output and variables of loops are looked at.
fn resolved(alloc: Global, program: Program) -> Result<Resolved, CallFault>
    ensures program { IfOk result (λ resolved. resolved ≡ program) }
    ensures resolved { IfOk result IsResolved }
    ensures fault { (source : List ℕ)
        → ParsesAs source program
        → IfErr result (IsFaultOf (RefusesSource source) ⊥) }
{
    match resolve(alloc, program) {
        Ok(resolved) => Ok(resolved),
        Err(RuleFault::Broken { rule, place }) => Err(CallFault::Refused(Refusal::Rule {
            rule,
            place,
        })),
        Err(RuleFault::NoMemory) => Err(CallFault::NoMemory),
    }
}

/// A program whose rules on parallel loops are looked at too.
fn checked(alloc: Global, program: Resolved) -> Result<Checked, CallFault>
    requires { IsResolved program }
    ensures program { IfOk result (λ checked. checked ≡ program) }
    ensures unbroken { IfOk result NoneBroken }
    ensures fault { (source : List ℕ)
        → ParsesAs source program
        → IfErr result (IsFaultOf (RefusesSource source) ⊥) }
{
    match check(alloc, program) {
        Ok(checked) => Ok(checked),
        Err(RuleFault::Broken { rule, place }) => {
            Err(CallFault::Refused(Refusal::Parallel { rule, place }))
        }
        Err(RuleFault::NoMemory) => Err(CallFault::NoMemory),
    }
}

/// A program that breaks no rule, where there is code for it, which has few enough blocks.
fn fitting(program: Checked) -> Result<Checked, CallFault>
    requires unbroken { NoneBroken program }
    requires few { blocks_of_program program < 2 ^ 64 - 1 }
    ensures accepted { (source : List ℕ)
        → ParsesAs source program
        → IfOk result (AcceptsOnly source) }
    ensures fault { (source : List ℕ)
        → ParsesAs source program
        → IfErr result (IsFaultOf (RefusesSource source) ⊥) }
{
    if !program_is_built(&program) {
        return Err(CallFault::Refused(Refusal::NotBuilt));
    }
    let blocks = block_count(&program);
    if blocks <= MAX_BLOCKS as u64 {
        return Ok(program);
    }
    Err(CallFault::Refused(Refusal::Blocks(blocks)))
}

/// The program of a source text of at most the greatest length, which breaks no rule, for which
/// there is code, and whose code has few enough blocks.
pub fn judge(alloc: Global, source: &[u8]) -> Result<Checked, CallFault>
    requires { length source.now ≤ MAX_SOURCE_BYTES }
    ensures accepted { IfOk result (AcceptsOnly source.now) }
    ensures fault { IfErr result (IsFaultOf (RefusesSource source.now) ⊥) }
{
    let program = parse_source(alloc, source)?;
    let program = resolved(alloc, program)?;
    let program = checked(alloc, program)?;
    fitting(program)
}
