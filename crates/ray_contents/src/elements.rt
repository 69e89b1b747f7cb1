ghost use Rattle.std.specs.Prelude.{◌≡◌};

use std::marker::Model;

/// The elements of a geometry, in order. Contracts see it as their list.
#[derive(Drop)]
pub struct Elements<T> {
    items: Vec<T>,
}

impl<T> Model for Elements<T> {
    ghost use Rattle.std.specs.Prelude.{List};

    ghost Value = { List T };

    ghost view = { λ l. l.items.items };
}

impl<T> Elements<T> {
    /// The elements of a `Vec`.
    pub fn new(items: Vec<T>) -> Elements<T>
        ensures { result ≡ items.items }
    {
        Elements { items }
    }

    /// The elements as a slice.
    pub fn as_slice(&self) -> &[T]
        ensures { result.now ≡ self.now }
    {
        self.items.as_slice()
    }
}
