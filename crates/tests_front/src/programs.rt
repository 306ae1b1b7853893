// Programs of sources, for the tests that run them.

use loop_lex::lex;
use loop_parse::parse;
use loop_rules::{Resolved, resolve};
use std::alloc::Global;

/// The program of a source, where it breaks no rule that `resolve` looks at.
pub fn resolved(alloc: Global, source: &[u8]) -> Option<Resolved> {
    if source.len() > 1_048_576 {
        return None;
    }
    let Ok(tokens) = lex(alloc, source) else {
        return None;
    };
    match parse(alloc, source, &tokens) {
        Ok(program) => resolve(alloc, program).ok(),
        Err(_fault) => None,
    }
}
