// What a name means where it is visible.
ghost use Rattle.std.specs.Prelude.{◌≡◌};
ghost use Rattle.c65_elab_scope.specs.Tables.{same_meaning};

/// What a declaration enters: an object or a function by its number in the unit, or a type.
#[derive(Clone, Copy, Debug, PartialEq, Eq)]
pub enum Entity {
    Object(u32),
    Func(u32),
    Typedef,
}

/// What a name means (C90 6.1.2). Each number is that of the item in its list.
#[derive(Clone, Copy)]
pub enum Meaning {
    Object(u32),
    Func(u32),
    /// A typedef name, by its type's number.
    Typedef(u32),
    /// An enumeration constant and its value.
    Enumerator(i64),
    /// The tag of a structure or union.
    Tag(u32),
    /// The tag of an enumeration.
    Enumeration,
}

/// What a declaration makes of its name, and how many blocks were open there.
#[derive(Clone, Copy)]
pub struct Bound {
    pub meaning: Meaning,
    pub block: u32,
}

impl Meaning {
    /// Whether both are the same object, or the same function.
    pub fn is_same(self, other: Meaning) -> bool
        ensures { result ≡ same_meaning self other }
    {
        match (self, other) {
            (Meaning::Object(a), Meaning::Object(b)) => a == b,
            (Meaning::Func(a), Meaning::Func(b)) => a == b,
            _ => false,
        }
    }
}
