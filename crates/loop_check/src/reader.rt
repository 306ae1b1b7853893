// Functions that read tables.

/// A function that reads a cell of a table, itself or through calls.
#[derive(Clone, Copy)]
pub struct Reader<'a> {
    /// The function's name.
    pub func: &'a [u8],
    /// The table's name.
    pub table: &'a [u8],
}
