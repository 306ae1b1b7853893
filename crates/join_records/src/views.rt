// What a pass knows. These types stand in contracts alone: no value of them is ever made.

use std::collections::LinkedList;
use tpal_machine::End;

/// Whether the pass that holds an end is in the middle of a call for it.
pub enum CallState {
    /// Between two calls, and in the middle of no claim or arrival.
    Steady,
    /// In the middle of a claim: the child's slot is out with the pass.
    Claiming,
    /// In the middle of an arrival: the slot of the side's outcome is out with the pass.
    Arriving,
}

/// How a pass has a record in hand.
pub enum Grip {
    /// Taken and not opened.
    Reserved,
    /// In the middle of an opening: the slots of the rest and of the child are out with the pass.
    Filling,
    /// Just met: the slots of the rest, which keeps this end, and of both sides are out with the
    /// pass.
    Emptying(End),
    /// Met by both sides, and the slots are home again. The rest kept this end.
    Emptied(End),
}

/// An end in a pass's hands, and what is owed there.
pub struct Holding<E> {
    pub end: End,
    pub ending: E,
    pub stage: CallState,
}

/// What a pass knows.
pub struct View<C, E> {
    /// The pass's number, from 0.
    pub number: u64,
    /// Its parts of the 16 that all passes have together.
    pub parts: u64,
    /// The child whose ending is Root's, until the first pass has read the finish word.
    pub born: Option<C>,
    /// Root's ending.
    pub root: Option<E>,
    /// The ends that it holds. While workers run it is at most one.
    pub ends: LinkedList<Holding<E>>,
    /// The records in hand.
    pub hand: LinkedList<(u64, Grip)>,
    /// How many records it has opened.
    pub opens: u64,
    /// How many finishes it has made, 0 or 1.
    pub made: u64,
    /// The words that its steps read, each with the value found, in order. Word 0 is the finish
    /// word, and word 1 + k is that of record k.
    pub reads: LinkedList<(u64, u64)>,
}
