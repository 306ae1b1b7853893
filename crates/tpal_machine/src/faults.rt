// Why a task is stuck.

/// Why an instruction or the end of a block can't be executed. It changes nothing then.
#[derive(Clone, Copy, PartialEq, Eq, Debug)]
pub enum Fault {
    /// A register that holds no number where one is needed.
    NotInt,
    /// A division or a remainder by 0.
    DivZero,
    /// A position that isn't one of the stack's.
    OutOfRange,
    /// A stack that would grow beyond the greatest position.
    TooLong,
    /// A cell with a mark on it that would be freed.
    MarkedCell,
    /// A mark that isn't above all others.
    MarkOrder,
    /// No mark stands.
    NoMark,
    /// A join record was given to the task and hasn't been used.
    Pending,
    /// A block that is no join target where one is needed.
    BadTarget,
    /// A register that holds no join record where one is needed.
    NotRec,
    /// Another join record than the one that is needed.
    WrongRecord,
    /// No beat has granted a fork.
    NoBeat,
    /// A cell of a table that the task doesn't hold.
    NotHeld,
    /// A table that can't be made, or not again.
    Made,
    /// An operand that is no label where one is needed.
    NotLabel,
    /// A side that halts.
    NotRoot,
}
