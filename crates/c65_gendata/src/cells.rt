// The first bytes of an object.
ghost use Rattle.std.specs.Prelude.{◌≡◌, [], replicate, IfOk, OnOk};
ghost use Rattle.std.specs.List.{list_all};
ghost use Rattle.c65_code.specs.declared.code.DataCell.TheVariants.{Byte};
ghost use Rattle.c65_gendata.specs.Cells.{symbol_of, offset_of, with_cell, with_cells, is_zero, literal_cells};

use c65_base::Text as Bytes;
use c65_code::{DataCell, Sym};
use c65_csem::{Cell, Target};
use c65_genframe::Numbers;
use std::alloc::{AllocError, Global};

/// The symbol that an initial pointer names.
fn symbol_of(numbers: Numbers, target: Target) -> Sym
    ensures { result ≡ symbol_of numbers target }
{
    match target {
        Target::Object(object) => numbers.object(object),
        Target::Literal(literal) => numbers.literal(literal),
        Target::Func(function) => numbers.function(function),
    }
}

/// An offset modulo 65,536.
fn wrapped(offset: i32) -> u16
    ensures { result ≡ offset_of offset }
{
    (offset as i64).rem_euclid(65_536) as u16
}

/// Adds what a byte of an initial value stands for. The first byte of a pointer stands for both.
fn add_cell(numbers: Numbers, cell: Cell, into: &mut Vec<DataCell>) -> Result<(), AllocError>
    ensures { OnOk result (into.new.items ≡ with_cell numbers cell into.old.items) }
{
    match cell {
        Cell::Byte(byte) => {
            into.push(DataCell::Byte(byte))?;
            Ok(())
        }
        Cell::Piece(target, offset, 0) => {
            let sym = symbol_of(numbers, target);
            into.push(DataCell::Address(sym, wrapped(offset)))?;
            Ok(())
        }
        Cell::Piece(_, _, _) => Ok(()),
    }
}

/// The cells of an initial value.
pub fn cells_of(
    alloc: Global,
    numbers: Numbers,
    cells: &[Cell],
) -> Result<Vec<DataCell>, AllocError>
    ensures { IfOk result (λ v. v.items ≡ with_cells numbers cells.now []) }
{
    let mut items = Vec::new(alloc);
    for cell in cells {
        add_cell(numbers, *cell, &mut items)?;
    }
    Ok(items)
}

fn is_zero(cell: &Cell) -> bool
    ensures { result ≡ is_zero cell.now }
{
    match cell {
        Cell::Byte(byte) => *byte == 0,
        Cell::Piece(_, _, _) => false,
    }
}

/// Whether all bytes of an initial value are zero.
pub fn are_zero(cells: &[Cell]) -> bool
    ensures { result ≡ list_all is_zero cells.now }
{
    for cell in cells {
        if !is_zero(cell) {
            return false;
        }
    }
    true
}

/// Zero bytes, so many.
pub fn zero_cells(alloc: Global, count: u32) -> Result<Vec<DataCell>, AllocError>
    ensures { IfOk result (λ v. v.items ≡ replicate count (Byte 0)) }
{
    let mut items = Vec::new(alloc);
    items.resize(count as usize, DataCell::Byte(0))?;
    Ok(items)
}

/// The bytes of a string literal, and the zero behind them (C90 6.1.4).
pub fn literal_cells(alloc: Global, bytes: &Bytes) -> Result<Vec<DataCell>, AllocError>
    ensures { IfOk result (λ v. v.items ≡ literal_cells bytes.now) }
{
    let mut items = Vec::new(alloc);
    for byte in bytes.as_slice() {
        items.push(DataCell::Byte(*byte))?;
    }
    items.push(DataCell::Byte(0))?;
    Ok(items)
}
