//! Tests of compiled code by public calls alone: how many blocks programs are counted with; the
//! first fork of a `par`; a leaf loop, instruction by instruction; and codes that are run event by
//! event under the core of all interleavings, in many orders, each with the outcome that was worked
//! out, and with the number of tasks where each beat may make one; and codes that come back from
//! their texts. It stands on the compiler, the machine, the core and the assembler and has no code
//! of its own, so that proving a test proves none of their laws again. Programs with what they
//! print are cases of `tests_conformance`.
#![tactic(auto)]

#[cfg(test)]
mod compiling;
#[cfg(test)]
mod counting;
#[cfg(test)]
mod forking;
#[cfg(test)]
mod leaves;
#[cfg(test)]
mod orders;
#[cfg(test)]
mod tasks;
#[cfg(test)]
mod texts;
