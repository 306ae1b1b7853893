// From the words of `exec` to a run of a code that is about to begin.

ghost use Rattle.std.specs.Prelude.{◌≡◌, ℕ, ◌≤◌, Option, List, IfErr, IfOk, IsSomeAnd, Some};
ghost use Rattle.std.specs.Prelude.{length, option_map};
ghost use Rattle.tp_value.specs.declared.limits.TheConstants.{MAX_TABLES_BYTES};
ghost use Rattle.tpal_tool.specs.Answering.{IsFaultOf, OwesRefusal};
ghost use Rattle.tpal_tool.specs.Asking.{exec_options_seen};
ghost use Rattle.tpal_tool.specs.ExecOwed.{ExecRunOwes, NamedExecOwes};
ghost use Rattle.tpal_tool.specs.Owed.{Owed, ReadFailed};
ghost use Rattle.tpal_tool.specs.Preparing.{IsPreparedExec};
ghost use Rattle.tpal_tool.specs.Shelf.{HasRisen};
ghost use Rattle.tpal_tool.specs.Told.{IsCodeOf};
ghost use Rattle.tpal_tool.specs.Words.{Exec, ExecOptions as Options};

use crate::code_inputs::{have_inputs, hold_inputs};
use crate::code_judging::judge_code;
use crate::fetching::{MAX_CODE_BYTES, fetched, fetched_tables};
use crate::inputs::tables_of;
use crate::prepared::PreparedExec;
use crate::refusal::CallFault;
use crate::request::{ExecOptions, ExecRequest};
use crate::shelf::Shelf;
use std::alloc::Global;
use tpal_verify::SafeCode;

/// A run of a code over a tables text.
fn prepare_code_run(
    alloc: Global,
    code: SafeCode,
    tables: &[u8],
    options: ExecOptions,
) -> Result<PreparedExec, CallFault>
    requires { length tables.now ≤ MAX_TABLES_BYTES }
    ensures prepared { IfOk result
        (λ run. IsPreparedExec (ExecRunOwes code tables.now (exec_options_seen options)) run.code
        run.held.items (exec_options_seen run.options)) }
    ensures fault { IfErr result
        (IsFaultOf (OwesRefusal (ExecRunOwes code tables.now (exec_options_seen options))) ⊥) }
{
    let given = tables_of(alloc, tables)?;
    have_inputs(alloc, code.code().tables(), &given)?;
    let held = hold_inputs(alloc, code.code(), given)?;
    Ok(PreparedExec {
        code,
        held,
        options,
    })
}

/// A run of a code over the tables text that it names, from the shelf.
fn prepare_named_code_run<S: Shelf>(
    alloc: Global,
    code: SafeCode,
    exec: ExecRequest,
    shelf: &mut S,
) -> Result<PreparedExec, CallFault>
    ensures prepared { IfOk result
        (λ run. IsPreparedExec
        (NamedExecOwes code (S.text shelf.old) (option_map (λ t. t.now) exec.entry.tables)
        (exec_options_seen exec.entry.options))
        run.code run.held.items (exec_options_seen run.options)) }
    ensures fault { IfErr result
        (IsFaultOf
        (OwesRefusal
        (NamedExecOwes code (S.text shelf.old) (option_map (λ t. t.now) exec.entry.tables)
        (exec_options_seen exec.entry.options)))
        (IsSomeAnd (option_map (λ t. t.now) exec.entry.tables)
        (λ name. HasRisen (S.faults shelf.old name) (S.faults shelf.new name)))) }
{
    let tables = fetched_tables(alloc, exec.tables, shelf)?;
    prepare_code_run(alloc, code, &tables, exec.options)
}

/// The code of a name, from the shelf.
fn named_code<S: Shelf>(alloc: Global, name: &str, shelf: &mut S) -> Result<SafeCode, CallFault>
    ensures code { IfOk result (IsCodeOf (S.text shelf.old name.now)) }
    ensures fault { (over : Option (List ℕ)) (options : Options)
        → IfErr result
        (IsFaultOf (OwesRefusal (Owed (Some (Exec name.now over options)) (S.text shelf.old)))
        (HasRisen (S.faults shelf.old name.now) (S.faults shelf.new name.now))) }
    ensures texts { (other : List ℕ) → S.text shelf.new other ≡ S.text shelf.old other }
    ensures counts { (other : List ℕ) → S.faults shelf.old other ≤ S.faults shelf.new other }
{
    let source = fetched(alloc, name, MAX_CODE_BYTES, shelf)?;
    judge_code(alloc, &source)
}

/// A run of the code that words name, with the texts that they name from the shelf.
pub fn prepare_exec<S: Shelf>(
    alloc: Global,
    exec: ExecRequest,
    shelf: &mut S,
) -> Result<PreparedExec, CallFault>
    ensures prepared { IfOk result
        (λ run. IsPreparedExec
        (Owed
        (Some
        (Exec exec.entry.code.now (option_map (λ t. t.now) exec.entry.tables)
        (exec_options_seen exec.entry.options)))
        (S.text shelf.old))
        run.code run.held.items (exec_options_seen run.options)) }
    ensures fault { IfErr result
        (IsFaultOf
        (OwesRefusal
        (Owed
        (Some
        (Exec exec.entry.code.now (option_map (λ t. t.now) exec.entry.tables)
        (exec_options_seen exec.entry.options)))
        (S.text shelf.old)))
        (ReadFailed
        (Some
        (Exec exec.entry.code.now (option_map (λ t. t.now) exec.entry.tables)
        (exec_options_seen exec.entry.options)))
        (S.text shelf.old) (S.faults shelf.old) (S.faults shelf.new))) }
{
    let code = named_code(alloc, exec.code, shelf)?;
    prepare_named_code_run(alloc, code, exec, shelf)
}
