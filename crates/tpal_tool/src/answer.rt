// What a call writes, and the status with which it ends.

use crate::status::Status;

/// The texts that a call writes, each on its own.
#[derive(Drop)]
pub enum Texts {
    /// One text: what a run printed, the code of a program, or the line of what is refused.
    One(Vec<u8>),
    /// The texts of a run that is shown, in this order.
    Shown {
        /// The text of its code.
        code: Vec<u8>,
        /// What it printed.
        output: Vec<u8>,
        /// The line of its counts.
        counts: Vec<u8>,
    },
}

/// A status, and the texts that are written with it.
#[derive(Drop)]
pub struct Answer {
    /// The status, where all texts are written.
    pub status: Status,
    /// The texts.
    pub texts: Texts,
}
