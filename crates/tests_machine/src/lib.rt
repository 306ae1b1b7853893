//! Tests of the machine by its public calls alone: each fault, what a turn counts, a fork with what
//! its two sides hand over, and ops, which do what their instructions do one at a time. It stands
//! on the machine and has no code of its own, so that proving a test proves none of its laws again.
#![tactic(auto)]

#[cfg(test)]
mod calls;
#[cfg(test)]
mod cells;
#[cfg(test)]
mod codes;
#[cfg(test)]
mod counts;
#[cfg(test)]
mod faults;
#[cfg(test)]
mod forks;
#[cfg(test)]
mod instructions;
#[cfg(test)]
mod loops;
#[cfg(test)]
mod ops;
#[cfg(test)]
mod reads;
#[cfg(test)]
mod runs;
