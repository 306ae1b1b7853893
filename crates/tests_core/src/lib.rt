//! Tests of the core of all interleavings by its public calls alone: codes run event by event, also
//! from their texts, a sum in many orders of events, and the solo run, with what each prints and
//! counts. It stands on `schedule_core` and has no code of its own, so that proving a test proves
//! none of its laws again.
#![tactic(auto)]

#[cfg(test)]
mod codes;
#[cfg(test)]
mod events;
#[cfg(test)]
mod orders;
#[cfg(test)]
mod solo;
#[cfg(test)]
mod texts;
