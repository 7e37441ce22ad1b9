// Where objects lie, and what is kept there.
ghost use Rattle.std.specs.Prelude.{◌≡◌};
ghost use Rattle.c65_genload.specs.Places.{held, settled, onward, type_in, extent_of, extent_by};

use c65_code::Sym;
use c65_ints::IntType;

/// Where an object or a part of one lies.
#[derive(Clone, Copy, Debug, PartialEq, Eq)]
pub enum Place {
    /// From this byte of regbank on.
    Bank(u8),
    /// So many bytes above sp, at most 252.
    Near(u8),
    /// So far behind a symbol.
    Data(Sym, u16),
    /// So far behind an address that is in AX, at most 250. The address of its first byte waits on the
    /// software stack while more is computed.
    Far(u8),
}

/// The bits of a unit of 16 bits that are a bit-field: the type of its value, its lowest bit and
/// its width (C90 6.5.2.1).
#[derive(Clone, Copy, Debug, PartialEq, Eq)]
pub struct Field {
    pub kind: IntType,
    pub low: u8,
    pub width: u8,
}

/// What is kept at a place: a number, where a pointer is an unsigned int, or a bit-field.
#[derive(Clone, Copy, Debug, PartialEq, Eq)]
pub enum Access {
    Whole(IntType),
    Part(Field),
}

/// The type of the value that is kept.
pub fn value_type(access: Access) -> IntType
    ensures { result ≡ type_in access }
{
    match access {
        Access::Whole(kind) => kind,
        Access::Part(field) => field.kind,
    }
}

/// How many bytes wait on the software stack for a place.
pub fn held(place: Place) -> u16
    ensures { result ≡ held place }
{
    match place {
        Place::Far(_) => 2,
        Place::Bank(_) | Place::Near(_) | Place::Data(_, _) => 0,
    }
}

/// The place, once its address waits and is in AX: that is the address of its first byte.
pub fn settled(place: Place) -> Place
    ensures { result ≡ settled place }
{
    match place {
        Place::Far(_) => Place::Far(0),
        Place::Bank(_) | Place::Near(_) | Place::Data(_, _) => place,
    }
}

/// The place so many bytes on.
pub fn onward(place: Place, bytes: u8) -> Place
    ensures { result ≡ onward place bytes }
{
    match place {
        Place::Bank(at) => Place::Bank(at.wrapping_add(bytes)),
        Place::Near(at) => Place::Near(at.wrapping_add(bytes)),
        Place::Data(sym, at) => Place::Data(sym, at.wrapping_add(bytes as u16)),
        Place::Far(at) => Place::Far(at.wrapping_add(bytes)),
    }
}

/// How many bytes are moved at once.
#[derive(Clone, Copy, Debug, PartialEq, Eq)]
pub enum Extent {
    One,
    Two,
    Three,
    Four,
}

/// The bytes of a type.
pub fn extent_of(kind: IntType) -> Extent
    ensures { result ≡ extent_of kind }
{
    match kind {
        IntType::SChar | IntType::UChar => Extent::One,
        IntType::Short | IntType::UShort | IntType::Int | IntType::UInt => Extent::Two,
        IntType::Long | IntType::ULong => Extent::Four,
    }
}

/// So many bytes, from 1 to 4.
pub fn extent_by(bytes: u32) -> Extent
    ensures { result ≡ extent_by bytes }
{
    if bytes < 2 {
        Extent::One
    } else if bytes < 3 {
        Extent::Two
    } else if bytes < 4 {
        Extent::Three
    } else {
        Extent::Four
    }
}
