// The versions of code text.

/// A version of code text.
#[derive(Clone, Copy, PartialEq, Eq, Debug)]
pub enum Version {
    /// Headers have no numbers, and no block is left.
    One,
    /// The first line is `tpal 2`, and headers have the numbers of their blocks.
    Two,
}
