// Whether first values are bytes and whole pointers (C90 6.5.7).
ghost use Rattle.std.specs.Prelude.{◌≡◌, option_map};
ghost use Rattle.c65_csem_check.specs.Statements.{same_value};
ghost use Rattle.c65_csem_plain.specs.Tests;
ghost use Rattle.c65_csem_plain.specs.declared.initial.Awaited.TheVariants.{Any};

use c65_csem::{Cell, Target};

/// What may come next among the bytes of a first value.
#[derive(Clone, Copy, Debug, PartialEq, Eq)]
pub enum Awaited {
    /// A byte, or the low byte of a pointer.
    Any,
    /// The high byte of a pointer to this place.
    High(Target, i32),
    /// Nothing: a cell came that was not awaited.
    Never,
}

pub fn are_bytes(bytes: &[u8]) -> bool
    ensures { result ≡ Tests.are_bytes bytes.now }
{
    for byte in bytes {
        if *byte as u32 >= 256 {
            return false;
        }
    }
    true
}

fn is_byte(cell: Cell) -> bool
    ensures { result ≡ Tests.is_byte cell }
{
    match cell {
        Cell::Byte(byte) => (byte as u32) < 256,
        Cell::Piece(_, _, _) => true,
    }
}

fn are_byte_cells(cells: &[Cell]) -> bool
    ensures { result ≡ Tests.are_byte_cells cells.now }
{
    for cell in cells {
        if !is_byte(*cell) {
            return false;
        }
    }
    true
}

fn same_target(a: Target, b: Target) -> bool
    ensures { result ≡ Tests.same_target a b }
{
    match (a, b) {
        (Target::Object(i), Target::Object(j)) => i == j,
        (Target::Literal(i), Target::Literal(j)) => i == j,
        (Target::Func(i), Target::Func(j)) => i == j,
        _ => false,
    }
}

fn same_offset(a: i32, b: i32) -> bool
    ensures { result ≡ same_value a b }
{
    a <= b && b <= a
}

/// What may follow a cell.
fn after(awaited: Awaited, cell: Cell) -> Awaited
    ensures { result ≡ Tests.after awaited cell }
{
    match (awaited, cell) {
        (Awaited::Any, Cell::Byte(_)) => Awaited::Any,
        (Awaited::Any, Cell::Piece(target, offset, part)) => {
            if part == 0 {
                Awaited::High(target, offset)
            } else {
                Awaited::Never
            }
        }
        (Awaited::High(t, o), Cell::Piece(target, offset, part)) => {
            if part == 1 && same_target(target, t) && same_offset(offset, o) {
                Awaited::Any
            } else {
                Awaited::Never
            }
        }
        (Awaited::High(_, _), Cell::Byte(_)) | (Awaited::Never, _) => Awaited::Never,
    }
}

fn ends(awaited: Awaited) -> bool
    ensures { result ≡ Tests.ends awaited }
{
    match awaited {
        Awaited::Any => true,
        Awaited::High(_, _) | Awaited::Never => false,
    }
}

/// Whether the two bytes of each pointer stand side by side, the low one first.
fn are_paired(cells: &[Cell]) -> bool
    ensures { result ≡ Tests.are_paired Any cells.now }
{
    let mut awaited = Awaited::Any;
    for cell in cells {
        awaited = after(awaited, *cell);
    }
    ends(awaited)
}

pub fn begins_plain(init: &Option<Vec<Cell>>) -> bool
    ensures { result ≡ Tests.begins_plain (option_map (λ v. v.items) init.now) }
{
    match init {
        Some(cells) => are_byte_cells(cells) && are_paired(cells),
        None => true,
    }
}
