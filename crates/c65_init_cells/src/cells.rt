// The first bytes of an object.
ghost use Rattle.std.specs.Prelude.{◌≡◌, ◌≤◌, OnOk, length, set, take, slice_get};
ghost use Rattle.std.specs.Int.{w64, cast_unsigned, to_le_bytes};
ghost use Rattle.c65_init_cells.specs.Cells.{grown, placed, written, pointed, byte_in, low_bits, unit_at, with_bits};

use c65_csem::{Cell, Target};
use std::alloc::AllocError;

/// At least so many bytes, with zero bytes behind those that are there.
#[tactic(auto, using(crate::proofs::CellLaws::grown_push, crate::proofs::CellLaws::grown_done))]
pub fn grow(cells: &mut Vec<Cell>, size: usize) -> Result<(), AllocError>
    ensures { OnOk result (cells.new.items ≡ grown cells.old.items size) }
{
    while cells.len() < size {
        cells.push(Cell::Byte(0))?;
    }
    Ok(())
}

/// A byte, or one of the two bytes of a pointer, where there is room for it.
#[tactic(auto, using(std::proofs::lemmas::List::set_past))]
fn put(cells: &mut Vec<Cell>, at: usize, cell: Cell)
    ensures { cells.new.items ≡ set cells.old.items at cell }
{
    if let Some(place) = cells.get_mut(at) {
        *place = cell;
    }
}

/// A byte, with zero bytes before it where there are none.
fn put_byte(cells: &mut Vec<Cell>, at: usize, byte: u8) -> Result<(), AllocError>
    requires { at ≤ 4294967303 }
    ensures { OnOk result (cells.new.items ≡ placed cells.old.items at byte) }
{
    grow(cells, at + 1)?;
    put(cells, at, Cell::Byte(byte));
    Ok(())
}

/// Bytes in their order.
#[tactic(auto, using(crate::proofs::CellLaws::written_push))]
fn put_bytes(cells: &mut Vec<Cell>, from: u32, bytes: &[u8]) -> Result<(), AllocError>
    requires { length bytes.now ≤ 8 }
    ensures { OnOk result (cells.new.items ≡ written cells.old.items from bytes.now) }
{
    for i in 0..bytes.len() {
        put_byte(cells, from as usize + i, bytes[i])?;
    }
    Ok(())
}

/// A number of so many bytes, at most 8, the lowest first.
pub fn put_number(
    cells: &mut Vec<Cell>,
    offset: u32,
    size: u32,
    value: i64,
) -> Result<(), AllocError>
    requires { size ≤ 8 }
    ensures { OnOk result (cells.new.items ≡ written cells.old.items offset (take size (to_le_bytes w64 (cast_unsigned w64 value)))) }
{
    let bytes = value.to_le_bytes();
    put_bytes(cells, offset, &bytes[..size as usize])
}

/// The two bytes of a pointer.
pub fn put_pointer(
    cells: &mut Vec<Cell>,
    offset: u32,
    target: Target,
    distance: i32,
) -> Result<(), AllocError>
    ensures { OnOk result (cells.new.items ≡ pointed cells.old.items offset target distance) }
{
    let from = offset as usize;
    grow(cells, from + 2)?;
    put(cells, from, Cell::Piece(target, distance, 0));
    put(cells, from + 1, Cell::Piece(target, distance, 1));
    Ok(())
}

/// The byte at a place; zero where none is.
fn byte_at(cells: &[Cell], at: usize) -> u8
    ensures { result ≡ byte_in (slice_get cells.now at) }
{
    match cells.get(at) {
        Some(Cell::Byte(byte)) => *byte,
        _ => 0,
    }
}

/// The lowest bits of a number, so many of its first 16.
fn lowest_bits(value: i64, width: u8) -> u16
    ensures { result ≡ low_bits value width }
{
    let low = (value.cast_unsigned() % 65_536) as u16;
    if width < 16 { low % (1 << width) } else { low }
}

/// A unit of two bytes, the lower one first, as a number.
fn unit_at(cells: &[Cell], at: usize) -> u16
    requires { at ≤ 4294967303 }
    ensures { result ≡ unit_at cells.now at }
{
    byte_at(cells, at) as u16 + 256 * byte_at(cells, at + 1) as u16
}

/// The value of a bit-field in its unit of two bytes, whose other bits stay.
pub fn put_bits(
    cells: &mut Vec<Cell>,
    offset: u32,
    lowest: u8,
    width: u8,
    value: i64,
) -> Result<(), AllocError>
    ensures { OnOk result (cells.new.items ≡ with_bits cells.old.items offset lowest width value) }
{
    let from = offset as usize;
    grow(cells, from + 2)?;
    let shift = if lowest < 16 { lowest } else { 0 };
    let unit = unit_at(cells, from) | (lowest_bits(value, width) << shift);
    put(cells, from, Cell::Byte((unit % 256) as u8));
    put(cells, from + 1, Cell::Byte((unit / 256) as u8));
    Ok(())
}
