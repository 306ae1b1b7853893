// Trying a case.

use crate::calling::{File, call, copied};
use crate::comparing::{same_assembled, same_call};
use crate::disturbing::{Disturbed, try_disturbed};
use crate::failure::Failure;
use crate::shown::words_text;
use std::alloc::{AllocError, Global};
use std::sync::Wait;
use std::thread::Threads;
use suite_cases::{Assembled, Case, Failing, Fronts};

// The code that `compile` writes of a file; nothing where none is asked for.
fn code_of<R: Threads + Wait + Sync + AllocGlobal>(
    rt: &R,
    name: Option<&String>,
    files: &[File],
) -> Result<Vec<u8>, AllocError> {
    let alloc = rt.alloc();
    let Some(name) = name else {
        return Ok(Vec::new(alloc));
    };
    let words = vec![in alloc; String::from_str(alloc, "compile")?, name.clone()?]?;
    Ok(call(rt, &words, files, &Failing::new(alloc))?.text)
}

fn try_call<R: Threads + Wait + Sync + AllocGlobal>(
    rt: &R,
    case: &Case,
    words: &[String],
    files: &[File],
) -> Result<(), Failure> {
    let owed = &case.owed;
    let code = code_of(rt, owed.code.as_ref(), files)?;
    let called = call(rt, words, files, &case.failing)?;
    same_call(rt.alloc(), owed, &code, &called)?;
    if owed.pieces.is_empty() {
        return Ok(());
    }
    let whole = called.text.as_slice();
    try_disturbed(
        rt,
        Disturbed {
            owed,
            words,
            files,
            whole,
        },
    )
}

// Puts what a failure came with before what differs.
fn with(alloc: Global, before: &str, outcome: Result<(), Failure>) -> Result<(), Failure> {
    match outcome {
        Err(Failure::Differs(differs)) => Err(Failure::Differs(format!(in alloc;
            "{before}: {differs}"
        )?)),
        other => other,
    }
}

fn try_calls<R: Threads + Wait + Sync + AllocGlobal>(
    rt: &R,
    case: &Case,
    files: &[File],
) -> Result<(), Failure> {
    for words in &case.calls {
        let outcome = try_call(rt, case, words, files);
        if outcome.is_err() {
            return with(rt.alloc(), words_text(rt.alloc(), words)?.as_str(), outcome);
        }
    }
    Ok(())
}

fn try_assembling(
    alloc: Global,
    owed: &Assembled,
    files: &[File],
    name: &str,
) -> Result<(), Failure> {
    match files.iter().find(|file| file.0.as_str() == name) {
        Some(file) => same_assembled(alloc, owed, &file.1),
        None => Err(Failure::Differs(format!(in alloc; "there is no file {name}")?)),
    }
}

fn try_files<R: Threads + Wait + Sync + AllocGlobal>(
    rt: &R,
    case: &Case,
    files: &[File],
) -> Result<(), Failure> {
    match (&case.assembles, &case.owed.assembled) {
        (Some(name), Some(owed)) => try_assembling(rt.alloc(), owed, files, name.as_str()),
        _ => try_calls(rt, case, files),
    }
}

// The files, of which one is cut to its first bytes.
fn cut(
    alloc: Global,
    files: &[File],
    fronts: &Fronts,
    length: u32,
) -> Result<Vec<File>, AllocError> {
    let mut copies = copied(alloc, files)?;
    for file in copies.iter_mut() {
        if file.0.as_str() == fronts.name.as_str() {
            file.1.truncate(length as usize);
        }
    }
    Ok(copies)
}

fn try_fronts<R: Threads + Wait + Sync + AllocGlobal>(
    rt: &R,
    case: &Case,
    fronts: &Fronts,
) -> Result<(), Failure> {
    let alloc = rt.alloc();
    for length in fronts.lengths.from..=fronts.lengths.to {
        let outcome = try_files(rt, case, &cut(alloc, &case.files, fronts, length)?);
        if outcome.is_err() {
            let before = format!(in alloc; "of {} are {length} bytes", fronts.name)?;
            return with(alloc, before.as_str(), outcome);
        }
    }
    Ok(())
}

/// Tries all that a case has.
pub fn try_case<R: Threads + Wait + Sync + AllocGlobal>(
    rt: &R,
    case: &Case,
) -> Result<(), Failure> {
    match &case.fronts {
        Some(fronts) => try_fronts(rt, case, fronts),
        None => try_files(rt, case, &case.files),
    }
}
