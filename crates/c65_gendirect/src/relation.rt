// How the left side of a comparison stands to the right one (C90 6.3.8, 6.3.9).
ghost use Rattle.std.specs.Prelude.{◌≡◌};
ghost use Rattle.c65_gendirect.specs.Compare.{relation_of, negated, mirrored};

use c65_base::BinaryOp;

#[derive(Clone, Copy, Debug, PartialEq, Eq)]
pub enum Relation {
    Less,
    NotLess,
    Greater,
    NotGreater,
    Equal,
    Unequal,
}

impl Relation {
    /// The relation that holds where this one does not.
    pub fn negated(self) -> Relation
        ensures { result ≡ negated self }
    {
        match self {
            Relation::Less => Relation::NotLess,
            Relation::NotLess => Relation::Less,
            Relation::Greater => Relation::NotGreater,
            Relation::NotGreater => Relation::Greater,
            Relation::Equal => Relation::Unequal,
            Relation::Unequal => Relation::Equal,
        }
    }

    /// How the right side stands to the left one.
    pub fn mirrored(self) -> Relation
        ensures { result ≡ mirrored self }
    {
        match self {
            Relation::Less => Relation::Greater,
            Relation::NotLess => Relation::NotGreater,
            Relation::Greater => Relation::Less,
            Relation::NotGreater => Relation::NotLess,
            Relation::Equal => Relation::Equal,
            Relation::Unequal => Relation::Unequal,
        }
    }
}

/// The relation that a comparison asks for.
pub fn relation_of(op: BinaryOp) -> Option<Relation>
    ensures { result ≡ relation_of op }
{
    match op {
        BinaryOp::Lt => Some(Relation::Less),
        BinaryOp::Ge => Some(Relation::NotLess),
        BinaryOp::Gt => Some(Relation::Greater),
        BinaryOp::Le => Some(Relation::NotGreater),
        BinaryOp::Eq => Some(Relation::Equal),
        BinaryOp::Ne => Some(Relation::Unequal),
        _ => None,
    }
}
