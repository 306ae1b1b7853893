// What a register or a cell holds.

/// What a register or a cell of a stack holds.
#[derive(Clone, Copy, PartialEq, Eq, Debug)]
pub enum Word {
    /// A number.
    Int(i64),
    /// A block, by its position in the code.
    Label(u32),
    /// A join record, by its number.
    Rec(u32),
    /// Nothing yet.
    Nil,
}
