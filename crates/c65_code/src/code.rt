// A whole program as lines and data.
use crate::items::Items;
use crate::line::Sym;
use crate::segment::Seg;
use c65_base::Text;

/// A list of bytes.
pub use c65_base::Text as Bytes;

/// What a symbol's number stands for.
#[derive(Drop)]
pub struct Symbol {
    /// `_NAME`, `sN` or `qN` (MACHINE.md, "Symbols").
    pub spelling: Text,
    /// Whether it is a string literal's.
    pub literal: bool,
}

#[derive(Clone, Copy, Debug, PartialEq, Eq)]
pub enum DatumKind {
    /// Data that may be written.
    Data,
    /// Data that stay as they are.
    Const,
    /// Zero bytes that may be written.
    Zero,
}

#[derive(Clone, Copy, Debug, PartialEq, Eq)]
pub enum DataCell {
    Byte(u8),
    /// The two bytes of the address so far behind a symbol, low byte first.
    Address(Sym, u16),
}

/// The initial bytes of an object or a literal.
#[derive(Drop)]
pub struct Datum {
    pub sym: Sym,
    pub kind: DatumKind,
    pub cells: Items<DataCell>,
    /// How many zero bytes, where it is of kind Zero.
    pub zeros: u32,
}

/// A program: its symbols by number, its functions and its data.
#[derive(Drop)]
pub struct Code {
    pub symbols: Items<Symbol>,
    pub functions: Items<(Sym, Seg)>,
    pub datums: Items<Datum>,
    /// Whether main takes argc and argv.
    pub main_args: bool,
}

/// The string literals of a code, each with its bytes.
#[derive(Drop)]
pub struct Literals {
    pub items: Items<(Sym, Bytes)>,
}
