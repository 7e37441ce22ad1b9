// A list of parts of a code.
ghost use Rattle.std.specs.Prelude.{◌≡◌, ◌==◌, length};

use std::marker::Model;

/// Parts in order, which contracts see as a list.
#[derive(Drop)]
pub struct Items<T> {
    parts: Vec<T>,
}

impl<T> Model for Items<T> {
    ghost use Rattle.std.specs.Prelude.{List};

    ghost Value = { List T };

    ghost view = { λ l. l.parts.items };
}

impl<T> Items<T> {
    /// Takes over the parts of a `Vec`.
    pub fn from_vec(parts: Vec<T>) -> Items<T>
        ensures { result ≡ parts.items }
    {
        Items { parts }
    }

    pub fn as_slice(&self) -> &[T]
        ensures { result.now ≡ self.now }
    {
        &self.parts
    }

    pub fn into_vec(self) -> Vec<T>
        ensures { result.items ≡ self }
    {
        let Items { parts } = self;
        parts
    }
}
