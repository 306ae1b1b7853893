//! Tests of the pool by its public call alone: a sum by 1 to 16 workers, with what it prints and
//! counts, two workers that wait for each other, and one that sleeps. It stands on `steal_pool` and
//! has no code of its own, so that proving a test proves none of its laws again.
#![tactic(auto)]

#[cfg(test)]
mod meeting;
#[cfg(test)]
mod sleeping;
#[cfg(test)]
mod sums;
#[cfg(test)]
mod waiting;
