// What is wrong with a line of a file of cases.

use std::alloc::{AllocError, AllocFailed};

/// What is wrong with a line of a file of cases.
#[derive(Clone, Copy)]
pub enum Fault {
    /// Its first word is no keyword.
    Keyword,
    /// A quote inside a word, an escape that there isn't, or a quoted text without its end.
    Quotes,
    /// Behind the keyword stands something else than what belongs there, more, or less.
    Words,
    /// A number that isn't written in digits, or is too large.
    Number,
    /// A name that no text before it has.
    Name,
    /// Text that goes nowhere.
    Text,
    /// It belongs into a case, and no case has begun.
    NoCase,
    /// The case before it, or the last one, has no `words` and no `assemble`, or both.
    NoCall,
    /// The case before it, or the last one, says not how its calls end.
    NoEnd,
    /// The case before it, or the last one, has `pieces` without `fetches`.
    NoFetches,
    /// Memory was wanting.
    NoMemory,
}

impl Fault {
    /// What is wrong, in words.
    pub fn what(self) -> &'static str {
        match self {
            Fault::Keyword => "this is no keyword",
            Fault::Quotes => "a quoted text isn't of the form",
            Fault::Words => "what belongs behind the keyword is something else",
            Fault::Number => "this is no number that may stand here",
            Fault::Name => "no text before this has that name",
            Fault::Text => "this text goes nowhere",
            Fault::NoCase => "no case has begun",
            Fault::NoCall => "the case that ends here needs `words` or `assemble`, and not both",
            Fault::NoEnd => "the case that ends here doesn't say how its calls end",
            Fault::NoFetches => "the case that ends here has `pieces`, and needs `fetches`",
            Fault::NoMemory => "memory was wanting",
        }
    }
}

impl From<AllocError> for Fault {
    fn from(_error: AllocError) -> Fault {
        Fault::NoMemory
    }
}

impl<T: Drop> From<AllocFailed<T>> for Fault {
    fn from(_error: AllocFailed<T>) -> Fault {
        Fault::NoMemory
    }
}
