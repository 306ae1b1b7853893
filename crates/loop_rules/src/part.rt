// The parts of a program.

/// The part of a program that a place belongs to.
#[derive(Clone, Copy, PartialEq, Eq, Debug)]
pub enum Part {
    /// The size of a table.
    OfSize,
    /// A function.
    OfFunc,
    /// Main.
    OfMain,
}
