// From words to a code, or to a run that is about to begin.

ghost use Rattle.std.specs.Prelude.{◌≡◌, ℕ, ◌≤◌, Option, List, IfErr, IfOk, IsSomeAnd, Some, None};
ghost use Rattle.std.specs.Prelude.{length, option_map, true};
ghost use Rattle.tp_value.specs.declared.limits.TheConstants.{MAX_BLOCKS, MAX_TABLES_BYTES};
ghost use Rattle.scene_laws.specs.Built.{program_is_built};
ghost use Rattle.scene_laws.specs.Count.{blocks_of_program};
ghost use Rattle.code_laws.specs.Owing.{OwesMeaning};
ghost use Rattle.tpal_tool.specs.Answering.{IsFaultOf, OwesRefusal};
ghost use Rattle.tpal_tool.specs.Asking.{command_of, options_seen};
ghost use Rattle.tpal_tool.specs.Owed.{NamedRunOwes, Owed, ReadFailed, RunOwes};
ghost use Rattle.tpal_tool.specs.Preparing.{HasWorkers, IsPreparedFor, Prepares};
ghost use Rattle.tpal_tool.specs.Shelf.{HasRisen};
ghost use Rattle.tpal_tool.specs.Told.{IsProgramOf};
ghost use Rattle.tpal_tool.specs.Words.{Command, Sample, asked_by, file_asked, file_name};
ghost use Rattle.tpal_tool.specs.Words.{program_name, workers_asked};

use crate::code_inputs::hold_inputs;
use crate::exec_preparing::prepare_exec;
use crate::fetching::{fetched, fetched_tables};
use crate::inputs::{have_all, tables_of};
use crate::judging::judge;
use crate::prepared::{Prepared, PreparedRun};
use crate::refusal::{CallFault, Refusal};
use crate::request::{Request, RunOptions, RunRequest, SampleRequest};
use crate::shelf::Shelf;
use crate::words::asked;
use block_lower::{LowerFault, lower};
use loop_check::Checked;
use std::alloc::Global;
use tp_value::{MAX_SOURCE_BYTES, NoMemory};
use tpal_syntax::Code;

/// The code of a program for which there is code, with few enough blocks.
fn code_of(alloc: Global, program: &Checked) -> Result<Code, NoMemory>
    requires built { program_is_built program.now ≡ true }
    requires blocks { blocks_of_program program.now ≤ MAX_BLOCKS }
    ensures { IfOk result (λ code. OwesMeaning program.now code) }
{
    match lower(alloc, program) {
        Ok(code) => Ok(code),
        Err(LowerFault::NoMemory) => Err(NoMemory),
        Err(LowerFault::Blocks(_)) => unreachable!(),
    }
}

/// A run of a program over a tables text.
fn prepare_run(
    alloc: Global,
    program: &Checked,
    tables: &[u8],
    options: RunOptions,
) -> Result<PreparedRun, CallFault>
    requires built { program_is_built program.now ≡ true }
    requires blocks { blocks_of_program program.now ≤ MAX_BLOCKS }
    requires tables { length tables.now ≤ MAX_TABLES_BYTES }
    ensures prepared { IfOk result
        (λ run. IsPreparedFor (RunOwes program.now tables.now (options_seen options)) run.code
        run.held.items (options_seen run.options)) }
    ensures workers { IfOk result (λ run. run.options.workers ≡ options.workers) }
    ensures fault { IfErr result
        (IsFaultOf (OwesRefusal (RunOwes program.now tables.now (options_seen options))) ⊥) }
{
    let given = tables_of(alloc, tables)?;
    have_all(alloc, &program.program().tables, &given)?;
    let code = code_of(alloc, program)?;
    let held = hold_inputs(alloc, &code, given)?;
    Ok(PreparedRun {
        code,
        held,
        options,
    })
}

/// A run of a program over the tables text that it names, from the shelf.
fn prepare_named_run<S: Shelf>(
    alloc: Global,
    program: &Checked,
    run: RunRequest,
    shelf: &mut S,
) -> Result<PreparedRun, CallFault>
    requires built { program_is_built program.now ≡ true }
    requires blocks { blocks_of_program program.now ≤ MAX_BLOCKS }
    ensures prepared { IfOk result
        (λ r. IsPreparedFor (NamedRunOwes program.now (S.text shelf.old)
        (option_map (λ t. t.now) run.entry.tables) (options_seen run.entry.options)) r.code
        r.held.items (options_seen r.options)) }
    ensures workers { IfOk result (λ r. r.options.workers ≡ run.entry.options.workers) }
    ensures fault { IfErr result
        (IsFaultOf (OwesRefusal (NamedRunOwes program.now (S.text shelf.old)
        (option_map (λ t. t.now) run.entry.tables) (options_seen run.entry.options)))
        (IsSomeAnd (option_map (λ t. t.now) run.entry.tables)
        (λ name. HasRisen (S.faults shelf.old name) (S.faults shelf.new name)))) }
{
    let tables = fetched_tables(alloc, run.tables, shelf)?;
    prepare_run(alloc, program, &tables, run.options)
}

/// The program of a name, from the shelf.
fn named_program<S: Shelf>(alloc: Global, name: &str, shelf: &mut S) -> Result<Checked, CallFault>
    ensures program { IfOk result (IsProgramOf (S.text shelf.old name.now)) }
    ensures fault { (command : Command)
        → program_name command ≡ Some name.now
        → IfErr result
        (IsFaultOf (OwesRefusal (Owed (Some command) (S.text shelf.old)))
        (HasRisen (S.faults shelf.old name.now) (S.faults shelf.new name.now))) }
    ensures texts { (other : List ℕ) → S.text shelf.new other ≡ S.text shelf.old other }
    ensures counts { (other : List ℕ) → S.faults shelf.old other ≤ S.faults shelf.new other }
{
    let source = fetched(alloc, name, MAX_SOURCE_BYTES, shelf)?;
    judge(alloc, &source)
}

/// A run of the sample of a seed. It needs no shelf.
fn prepare_sample_run(alloc: Global, request: SampleRequest) -> Result<PreparedRun, CallFault>
    ensures prepared { (told : List ℕ → Option (List ℕ))
        → IfOk result
        (λ run. IsPreparedFor
        (Owed (Some (Sample request.seed (options_seen request.options))) told) run.code
        run.held.items (options_seen run.options)) }
    ensures workers { IfOk result (λ run. run.options.workers ≡ request.options.workers) }
    ensures fault { (told : List ℕ → Option (List ℕ))
        → IfErr result
        (IsFaultOf
        (OwesRefusal (Owed (Some (Sample request.seed (options_seen request.options))) told)) ⊥) }
{
    let sample = sample_gen::sample(alloc, request.seed)?;
    let program = judge(alloc, &sample.source)?;
    prepare_run(alloc, &program, &sample.tables, request.options)
}

/// What a request comes to before anything runs, with the texts that it names from the shelf.
fn prepare_request<S: Shelf>(
    alloc: Global,
    request: Request,
    shelf: &mut S,
) -> Result<Prepared, CallFault>
    ensures prepared { IfOk result
        (Prepares (Owed (Some (command_of request.entry)) (S.text shelf.old))) }
    ensures workers { IfOk result
        (HasWorkers (workers_asked (Some (command_of request.entry)))) }
    ensures fault { IfErr result
        (IsFaultOf (OwesRefusal (Owed (Some (command_of request.entry)) (S.text shelf.old)))
        (ReadFailed (Some (command_of request.entry)) (S.text shelf.old) (S.faults shelf.old)
        (S.faults shelf.new))) }
    ensures unread { file_name (command_of request.entry) ≡ None → shelf.new ≡ shelf.old }
{
    match request {
        Request::Run(run) => {
            let program = named_program(alloc, run.program, shelf)?;
            Ok(Prepared::Run(prepare_named_run(alloc, &program, run, shelf)?))
        }
        Request::Compile(name) => {
            let program = named_program(alloc, name, shelf)?;
            Ok(Prepared::Compiled(code_of(alloc, &program)?))
        }
        Request::Sample(sample) => Ok(Prepared::Run(prepare_sample_run(alloc, sample)?)),
        Request::Exec(exec) => Ok(Prepared::Exec(prepare_exec(alloc, exec, shelf)?)),
    }
}

/// What the words come to before anything runs, with the texts that they name from the shelf.
pub fn prepare<S: Shelf>(
    alloc: Global,
    words: &[String],
    shelf: &mut S,
) -> Result<Prepared, CallFault>
    ensures prepared { IfOk result (Prepares (Owed (asked_by words.now) (S.text shelf.old))) }
    ensures workers { IfOk result (HasWorkers (workers_asked (asked_by words.now))) }
    ensures fault { IfErr result
        (IsFaultOf (OwesRefusal (Owed (asked_by words.now) (S.text shelf.old)))
        (ReadFailed (asked_by words.now) (S.text shelf.old) (S.faults shelf.old)
        (S.faults shelf.new))) }
    ensures unread { file_asked (asked_by words.now) ≡ None → shelf.new ≡ shelf.old }
{
    match asked(words) {
        None => Err(CallFault::Refused(Refusal::Words)),
        Some(request) => prepare_request(alloc, request, shelf),
    }
}
