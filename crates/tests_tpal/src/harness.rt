// A call over a shelf and a sink in memory.

use std::alloc::{AllocError, Global};
use std::sync::Wait;
use std::thread::Threads;
use steal_pool::Gate;
use tpal_tool::{MemShelf, MemSink, Status, tpal};

/// What a call wrote, and its status.
#[derive(Drop)]
pub struct Called {
    pub text: Vec<u8>,
    pub status: Status,
}

/// Words as a call takes them.
pub fn words_of(alloc: Global, words: &[&str]) -> Result<Vec<String>, AllocError> {
    let mut list = Vec::new(alloc);
    for word in words {
        list.push(String::from_str(alloc, word)?)?;
    }
    Ok(list)
}

/// Texts by their names.
pub fn texts_of(
    alloc: Global,
    texts: &[(&str, &[u8])],
) -> Result<Vec<(String, Vec<u8>)>, AllocError> {
    let mut list = Vec::new(alloc);
    for (name, text) in texts {
        list.push((
            String::from_str(alloc, name)?,
            Vec::from_slice(alloc, text)?,
        ))?;
    }
    Ok(list)
}

/// A sink that has nothing yet and never fails.
pub fn empty_sink(alloc: Global) -> MemSink {
    MemSink {
        bytes: Vec::new(alloc),
        fails: Vec::new(alloc),
        calls: 0,
        faults: 0,
    }
}

fn shelf_of(alloc: Global, texts: &[(&str, &[u8])]) -> Result<MemShelf, AllocError> {
    Ok(MemShelf {
        texts: texts_of(alloc, texts)?,
        fails: Vec::new(alloc),
        calls: 0,
        faults: 0,
    })
}

/// Calls with any words over a shelf that has these texts by name, with that gate.
pub fn call_beside<R: Threads + Wait + Sync + AllocGlobal, G: Gate + Sync>(
    rt: &R,
    words: &[&str],
    texts: &[(&str, &[u8])],
    gate: &G,
) -> Result<Called, AllocError> {
    let alloc = rt.alloc();
    let words = words_of(alloc, words)?;
    let mut shelf = shelf_of(alloc, texts)?;
    let mut sink = empty_sink(alloc);
    let status = tpal(rt, &words, &mut shelf, &mut sink, gate);
    Ok(Called {
        text: sink.bytes,
        status,
    })
}
