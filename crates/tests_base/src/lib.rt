//! Tests of what the machine stands on, by public calls alone: the ops that instructions become,
//! tables that are cut and put together again, and stacks with marks. It stands on the crates that
//! it tests and has no code of its own, so that proving a test proves none of their laws again.
//! Which lists are a code is told by cases of `tests_conformance`.
#![tactic(auto)]

#[cfg(test)]
mod accesses;
#[cfg(test)]
mod cells;
#[cfg(test)]
mod codes;
#[cfg(test)]
mod levels;
#[cfg(test)]
mod loops;
#[cfg(test)]
mod shorthand;
#[cfg(test)]
mod stacks;
#[cfg(test)]
mod tables;
