//! Tests of the top call that no case of the conformance suite can be: those with a gate or a shelf
//! of their own, and of each shelf and sink by itself. It stands on the top call and has no code of
//! its own. All other tests of whole calls are in `tests_conformance`.
#![tactic(auto)]

#[cfg(test)]
mod harness;
#[cfg(test)]
mod outside;
#[cfg(test)]
mod workers;
