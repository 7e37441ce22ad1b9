// Objects, functions and literals of a unit.
use crate::stmt::TStmt;
use c65_base::{Library, Name, Text as Bytes};
use c65_ctype::{FnType, QType, Types};

/// How an object is defined, and how long it lives (C90 6.1.2.4, 6.5.1, 6.7.2).
#[derive(Clone, Copy, Debug, PartialEq, Eq)]
pub enum Class {
    /// An external object with an initialiser.
    External,
    /// An external object that is defined without an initialiser.
    Tentative,
    /// An external object that is only declared.
    Declared,
    Static,
    Auto,
    Register,
    /// An object of a block that has one place for the whole run.
    Fixed,
}

/// What an initial pointer names.
#[derive(Clone, Copy, Debug, PartialEq, Eq)]
pub enum Target {
    Object(u32),
    Literal(u32),
    Func(u32),
}

/// A byte of an initial value, or one of the two bytes of a pointer: what it names, the offset from
/// there, and which byte it is.
#[derive(Clone, Copy, Debug, PartialEq, Eq)]
pub enum Cell {
    Byte(u8),
    Piece(Target, i32, u8),
}

#[derive(Drop)]
pub struct TObject {
    /// None for an object that holds the structure or union that a call gives.
    pub name: Option<Name>,
    pub ty: QType,
    pub class: Class,
    pub init: Option<Vec<Cell>>,
}

/// A function. Its parameters are automatic objects.
#[derive(Drop)]
pub struct TFunc {
    pub name: Name,
    pub ty: FnType,
    pub external: bool,
    pub params: Vec<u32>,
    pub body: Option<TStmt>,
    pub library: Option<Library>,
}

/// What a unit declares: tags, objects, the bytes of string literals without their last zero, and
/// functions.
#[derive(Drop)]
pub struct Parts {
    pub types: Types,
    pub objects: Vec<TObject>,
    pub literals: Vec<Bytes>,
    pub funcs: Vec<TFunc>,
}
