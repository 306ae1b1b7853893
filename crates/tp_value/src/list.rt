// The list type of public values.

ghost use Rattle.std.specs.Prelude.{◌≡◌, List};

use std::marker::Model;

/// A list of items, which contracts see as the list itself. Public values hold it where a `Vec`
/// would show its capacity and place in memory.
#[derive(Drop)]
pub struct Items<T> {
    all: Vec<T>,
}

impl<T> Model for Items<T> {
    ghost Value = { List T };

    ghost view = { λ list. list.all.items };
}

impl<T> Items<T> {
    /// The list of a vector's items. It takes no memory.
    pub fn new(items: Vec<T>) -> Items<T>
        ensures { result ≡ items.items }
    {
        Items { all: items }
    }

    /// The items, lent.
    pub fn items(&self) -> &[T]
        ensures { result.now ≡ self.now }
    {
        &self.all
    }

    /// The vector, given back. It takes no memory.
    pub fn into_vec(self) -> Vec<T>
        ensures { result.items ≡ self }
    {
        let Items { all } = self;
        all
    }
}
