//! Tests of the front end by its public calls alone: frames cut in two, runs of samples of a few
//! cells by the serial meaning, and what `leave` means and what the rules say of it, of which no
//! whole call tells before it has code. All answers are worked out by hand. It stands on the crates
//! that it tests and has no code of its own, so that proving a test proves none of their laws
//! again. Tokens, refusals, rules and what programs come to are cases of `tests_conformance`.
#![tactic(auto)]

#[cfg(test)]
mod frames;
#[cfg(test)]
mod leaves;
#[cfg(test)]
mod leaving;
#[cfg(test)]
mod programs;
#[cfg(test)]
mod samples;
