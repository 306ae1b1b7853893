// A call once more, with its fetches and writes failing.

use crate::calling::{Called, File, call};
use crate::comparing::{same_count, same_text};
use crate::failure::Failure;
use std::alloc::{AllocError, Global};
use std::sync::Wait;
use std::thread::Threads;
use suite_cases::{Failing, Owed};

// The statuses of a call that could not read, and of one that could not write.
const READ_FAULT: u32 = 5;

const WRITE_FAULT: u32 = 6;

// How many bytes a write that fails keeps.
const KEPT: [u32; 4] = [0, 1, 7, 100_000];

/// A call that is made again with its fetches and writes failing.
#[derive(Clone, Copy)]
pub struct Disturbed<'a> {
    pub owed: &'a Owed,
    pub words: &'a [String],
    pub files: &'a [File],
    /// What it writes undisturbed.
    pub whole: &'a [u8],
}

// Which fetches fail, of so many: none, each alone and the one behind the last, and all.
fn failing_fetches(alloc: Global, fetches: u32) -> Result<Vec<Vec<u32>>, AllocError> {
    let mut sets = vec![in alloc; Vec::new(alloc)]?;
    let mut all = Vec::new(alloc);
    for fetch in 0..=fetches {
        sets.push(Vec::from_slice(alloc, &[fetch])?)?;
        all.push(fetch)?;
    }
    sets.push(all)?;
    Ok(sets)
}

// Adds a write that fails, with each of the numbers of bytes kept, and the same with the next one.
fn push_write(
    alloc: Global,
    sets: &mut Vec<Vec<(u32, u32)>>,
    write: u32,
) -> Result<(), AllocError> {
    for kept in KEPT {
        sets.push(Vec::from_slice(alloc, &[(write, kept)])?)?;
    }
    sets.push(Vec::from_slice(alloc, &[(write.saturating_add(1), 0), (write, 1)])?)?;
    Ok(())
}

// Which writes fail, of those of the pieces: none, each of them and the one behind the last.
fn failing_writes(alloc: Global, pieces: &[u32]) -> Result<Vec<Vec<(u32, u32)>>, AllocError> {
    let mut sets = vec![in alloc; Vec::new(alloc)]?;
    push_write(alloc, &mut sets, 0)?;
    for (write, _piece) in (1u32..u32::MAX).zip(pieces) {
        push_write(alloc, &mut sets, write)?;
    }
    Ok(sets)
}

// How many bytes the sink keeps where writes have these sizes and these fail, and the status of
// the call where one of them failed.
fn kept(pieces: &[u32], writes: &[(u32, u32)]) -> (usize, Option<u32>) {
    let mut before = 0usize;
    for (number, piece) in (0u32..u32::MAX).zip(pieces) {
        if let Some(failed) = writes.iter().find(|failed| failed.0 == number) {
            let last = failed.1.min(*piece) as usize;
            return (before.saturating_add(last), Some(WRITE_FAULT));
        }
        before = before.saturating_add(*piece as usize);
    }
    (before, None)
}

// That a disturbed call left what it owes, where undisturbed it writes the whole text.
fn is_cut(
    alloc: Global,
    owed: &Owed,
    whole: &[u8],
    failing: &Failing,
    found: &Called,
) -> Result<(), Failure> {
    let status = u32::from(found.status);
    let fetches = owed.fetches.unwrap_or(0);
    if failing.fetches.iter().any(|fetch| *fetch < fetches) {
        same_text(alloc, b"", &found.text)?;
        same_count(alloc, "writes", 0, found.writes)?;
        return same_count(alloc, "status", READ_FAULT, status);
    }
    let (length, failed) = kept(&owed.pieces, &failing.writes);
    let Some(front) = whole.get(..length) else {
        let told = format!(in alloc; "the pieces have {length} bytes, the text fewer")?;
        return Err(Failure::Differs(told));
    };
    same_text(alloc, front, &found.text)?;
    let wanted = failed.or(owed.status).unwrap_or(status);
    same_count(alloc, "status", wanted, status)
}

// Tells which calls failed before what differed.
fn told(alloc: Global, failing: &Failing, differs: &str) -> Result<Failure, AllocError> {
    let Failing { fetches, writes } = failing;
    Ok(Failure::Differs(format!(in alloc;
        "with fetches {fetches:?} and writes {writes:?} failing, counted from 0: {differs}"
    )?))
}

fn try_failing<R: Threads + Wait + Sync + AllocGlobal>(
    rt: &R,
    disturbed: &Disturbed<'_>,
    failing: &Failing,
) -> Result<(), Failure> {
    let Disturbed {
        owed,
        words,
        files,
        whole,
    } = *disturbed;
    let found = call(rt, words, files, failing)?;
    match is_cut(rt.alloc(), owed, whole, failing, &found) {
        Err(Failure::Differs(differs)) => Err(told(rt.alloc(), failing, differs.as_str())?),
        other => other,
    }
}

/// That each call with some of its fetches and writes failing leaves what it owes: nothing and
/// status 5 where it could not read, and what was written before and status 6 where it could not
/// write.
pub fn try_disturbed<R: Threads + Wait + Sync + AllocGlobal>(
    rt: &R,
    disturbed: Disturbed<'_>,
) -> Result<(), Failure> {
    let alloc = rt.alloc();
    let owed = disturbed.owed;
    for fetches in failing_fetches(alloc, owed.fetches.unwrap_or(0))? {
        let mut failing = Failing {
            fetches,
            writes: Vec::new(alloc),
        };
        for writes in failing_writes(alloc, &owed.pieces)? {
            failing.writes = writes;
            try_failing(rt, &disturbed, &failing)?;
        }
    }
    Ok(())
}
