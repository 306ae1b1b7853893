// What a call wrote and answered beside what is owed.

use crate::calling::{Called, reassembled};
use crate::failure::Failure;
use crate::shown::excerpt;
use std::alloc::Global;
use suite_cases::{Assembled, Counts, Output, Owed};
use tpal_asm::AsmFault;

/// That two texts are the same.
pub fn same_text(alloc: Global, owed: &[u8], found: &[u8]) -> Result<(), Failure> {
    if owed == found {
        return Ok(());
    }
    let place = owed
        .iter()
        .zip(found)
        .position(|(one, other)| one != other)
        .unwrap_or(owed.len().min(found.len()));
    let wanted = excerpt(alloc, owed, place)?;
    let written = excerpt(alloc, found, place)?;
    Err(Failure::Differs(format!(in alloc;
        "from byte {place} on {written} was written, and {wanted} is owed"
    )?))
}

/// That a count is what is owed.
pub fn same_count(alloc: Global, what: &str, owed: u32, found: u32) -> Result<(), Failure> {
    if owed == found {
        return Ok(());
    }
    Err(Failure::Differs(format!(in alloc; "{what} {found}, and {owed} is owed")?))
}

// The number behind a word in a line.
fn count(line: &str, word: &str) -> Option<u64> {
    let mut words = line.split(' ');
    words.find(|found| *found == word)?;
    words.next()?.parse::<u64>().ok()
}

// Whether a line of counts is of the form, with numbers that are owed.
fn are_owed(alloc: Global, owed: &Counts, line: &str) -> Result<bool, Failure> {
    let words = line.trim_end();
    let tasks = count(words, "tasks").unwrap_or(0);
    let beats = count(words, "beats").unwrap_or(0);
    let skipped = count(words, "skipped").unwrap_or(0);
    let instructions = count(words, "instructions").unwrap_or(0);
    let ticks = count(words, "ticks").unwrap_or(0);
    let formed = format!(in alloc;
        "tasks {tasks} beats {beats} skipped {skipped} instructions {instructions} ticks {ticks}\n"
    )?;
    Ok(
        formed.as_str() == line
            && tasks.checked_add(skipped) == Some(beats)
            && owed.tasks.has(tasks)
            && owed.skipped.has(skipped)
            && owed.ticks.has(ticks),
    )
}

fn same_counts(alloc: Global, owed: &Counts, found: &[u8]) -> Result<(), Failure> {
    let is_right = match str::from_utf8(found) {
        Ok(line) => are_owed(alloc, owed, line)?,
        Err(_) => false,
    };
    if is_right {
        return Ok(());
    }
    let line = excerpt(alloc, found, 0)?;
    Err(Failure::Differs(format!(in alloc; "the counts {line} aren't those that are owed")?))
}

// That a text begins with another, and what it has behind that.
fn behind<'a>(alloc: Global, owed: &[u8], found: &'a [u8]) -> Result<&'a [u8], Failure> {
    match found.strip_prefix(owed) {
        Some(rest) => Ok(rest),
        None => {
            same_text(alloc, owed, found)?;
            Ok(&[])
        }
    }
}

fn same_output(alloc: Global, owed: &Owed, code: &[u8], found: &[u8]) -> Result<(), Failure> {
    let found = behind(alloc, code, found)?;
    match (&owed.output, &owed.counts) {
        (Output::Free, _) => Ok(()),
        (Output::Whole(text), None) => same_text(alloc, text, found),
        (Output::Whole(text), Some(counts)) => {
            same_counts(alloc, counts, behind(alloc, text, found)?)
        }
        (Output::Start(text), _) => {
            behind(alloc, text, found)?;
            Ok(())
        }
    }
}

fn same_counted(alloc: Global, what: &str, owed: Option<u32>, found: u32) -> Result<(), Failure> {
    match owed {
        Some(owed) => same_count(alloc, what, owed, found),
        None => Ok(()),
    }
}

/// That a call wrote and answered what is owed, where its output comes behind this code.
pub fn same_call(alloc: Global, owed: &Owed, code: &[u8], found: &Called) -> Result<(), Failure> {
    same_counted(alloc, "status", owed.status, u32::from(found.status))?;
    same_output(alloc, owed, code, &found.text)?;
    same_counted(alloc, "fetches", owed.fetches, found.fetches)?;
    same_counted(alloc, "writes", owed.writes, found.writes)?;
    match &owed.assembled {
        Some(assembled) => same_assembled(alloc, assembled, &found.text),
        None => Ok(()),
    }
}

fn fault_text(alloc: Global, fault: AsmFault) -> Result<String, Failure> {
    match fault {
        AsmFault::Form(line) => Ok(format!(in alloc; "fault form {line}")?),
        AsmFault::Label(line) => Ok(format!(in alloc; "fault label {line}")?),
        AsmFault::Limit(line) => Ok(format!(in alloc; "fault limit {line}")?),
        AsmFault::NoMemory => Err(Failure::NoMemory),
    }
}

/// That a text is assembled as is owed.
pub fn same_assembled(alloc: Global, owed: &Assembled, text: &[u8]) -> Result<(), Failure> {
    let what = match (reassembled(alloc, text), owed) {
        (Ok(printed), Assembled::Same) => return same_text(alloc, text, &printed),
        (Err(found), Assembled::Fault(fault)) if found == *fault => return Ok(()),
        (Err(found), _) => fault_text(alloc, found)?,
        (Ok(_), Assembled::Fault(_)) => String::from_str(alloc, "the text assembles")?,
    };
    Err(Failure::Differs(what))
}
