// Types as trees, and what a tag stands for.
use c65_base::{Name, Pos};
use c65_ints::IntType;

/// A type with its qualifiers (C90 6.5.3).
///
/// Trees of types are walked and dropped by recursion. Whoever makes a type bigger looks at its
/// `depth` first and refuses one that is deeper than the limit `Depth`: typedef names could chain
/// types without bound.
#[derive(Drop)]
#[cycle(types)]
pub struct QType {
    pub ty: CType,
    pub is_const: bool,
    pub is_volatile: bool,
}

/// A type without its qualifiers (C90 6.1.2.5). An enumeration is `Int(Int)`, and plain char is
/// one of the two character types.
#[derive(Drop)]
#[cycle(types)]
pub enum CType {
    Void,
    Int(IntType),
    Pointer(Box<QType>),
    /// An array, and how many elements it has where that is known.
    Array(Box<QType>, Option<u32>),
    /// A structure or union, by its tag's number in the table of its unit or program.
    Struct(u32),
    Function(Box<FnType>),
}

/// What a function takes and gives (C90 6.5.4.3). Without a prototype its parameters are not
/// known. A variadic function has a prototype. `cdecl` says that all its parameters go on the
/// stack.
#[derive(Drop)]
#[cycle(types)]
pub struct FnType {
    pub result: QType,
    pub params: Option<Vec<QType>>,
    pub variadic: bool,
    pub cdecl: bool,
}

/// A member of a structure or union: the byte where it begins, and for a bit-field the lowest of
/// its bits in the 16 of its unit, from 0, and its width, from 1 to 16.
#[derive(Drop)]
pub struct Member {
    pub name: Option<Name>,
    pub ty: QType,
    pub offset: u32,
    pub bits: Option<(u8, u8)>,
}

/// The members of a structure or union in their order, and its bytes, at most 65,535.
#[derive(Drop)]
pub struct Layout {
    pub is_union: bool,
    pub members: Vec<Member>,
    pub size: u32,
}

/// A member as it is declared (C90 6.5.2.1): a bit-field has a width and may have no name. Its
/// place is that of its declarator.
#[derive(Drop)]
pub struct Field {
    pub name: Option<Name>,
    pub ty: QType,
    pub width: Option<u8>,
    pub pos: Pos,
}

/// The tag of a structure or union, the unit that it came from, and its layout once it is
/// finished.
#[derive(Drop)]
pub struct Tag {
    pub unit: u32,
    pub is_union: bool,
    pub layout: Option<Layout>,
}

/// Tags by their numbers. They come from this many units, numbered from 0.
#[derive(Drop)]
pub struct TagTable {
    pub tags: Vec<Tag>,
    pub units: u32,
}
