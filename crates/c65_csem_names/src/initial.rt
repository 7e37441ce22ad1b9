// Whether initial values name only what is there for the whole run, and have both pieces of their pointers.
ghost use Rattle.std.specs.Prelude.{◌≡◌, map, option_map, option_copied};
ghost use Rattle.c65_csem.specs.Views.{object_of, unit_of};
ghost use Rattle.c65_csem_names.specs.Initial;
ghost use Rattle.c65_csem_names.specs.Tests;

use crate::marks::{is_automatic, object};
use c65_base::Size;
use c65_csem::{Cell, Parts, TObject, Target};

fn is_lasting(object: Option<&TObject>) -> bool
    ensures { result ≡ Tests.is_lasting (option_map object_of (option_copied object.entry)) }
{
    match object {
        Some(object) => !is_automatic(object.class),
        None => false,
    }
}

fn is_of_whole_run(parts: &Parts, target: Target) -> bool
    ensures { result ≡ Tests.is_of_whole_run (unit_of parts.now) target }
{
    match target {
        Target::Object(number) => is_lasting(object(parts, number)),
        Target::Literal(number) => (number as usize) < parts.literals.len(),
        Target::Func(number) => (number as usize) < parts.funcs.len(),
    }
}

fn points_to_whole_run(parts: &Parts, cell: Cell) -> bool
    ensures { result ≡ Tests.points_to_whole_run (unit_of parts.now) cell }
{
    match cell {
        Cell::Byte(_) => true,
        Cell::Piece(target, _, _) => is_of_whole_run(parts, target),
    }
}

fn point_to_whole_run(parts: &Parts, cells: &[Cell]) -> bool
    ensures { result ≡ Tests.point_to_whole_run (unit_of parts.now) cells.now }
{
    for cell in cells {
        if !points_to_whole_run(parts, *cell) {
            return false;
        }
    }
    true
}

fn is_first(cell: Cell) -> bool
    ensures { result ≡ Tests.is_first cell }
{
    match cell {
        Cell::Byte(_) => false,
        Cell::Piece(_, _, part) => part == 0,
    }
}

fn is_second(cell: Cell) -> bool
    ensures { result ≡ Tests.is_second cell }
{
    match cell {
        Cell::Byte(_) => false,
        Cell::Piece(_, _, part) => part != 0,
    }
}

fn first_pieces(cells: &[Cell]) -> usize
    ensures { result ≡ Initial.first_pieces cells.now }
{
    let mut count = 0;
    for cell in cells {
        if is_first(*cell) {
            count += 1;
        }
    }
    count
}

fn second_pieces(cells: &[Cell]) -> usize
    ensures { result ≡ Initial.second_pieces cells.now }
{
    let mut count = 0;
    for cell in cells {
        if is_second(*cell) {
            count += 1;
        }
    }
    count
}

/// Whether the initial value of an object, where it has one, is whole.
fn begins_well(parts: &Parts, object: &TObject) -> bool
    ensures { result ≡ Tests.begins_well (unit_of parts.now) (object_of object.now) }
{
    match &object.init {
        Some(cells) => {
            point_to_whole_run(parts, cells)
                && cells.len() as u64 <= Size::Object.number()
                && first_pieces(cells) <= second_pieces(cells)
        }
        None => true,
    }
}

pub fn begin_well(parts: &Parts) -> bool
    ensures { result ≡ Tests.begin_well (unit_of parts.now) (unit_of parts.now).objects }
{
    for object in &parts.objects {
        if !begins_well(parts, object) {
            return false;
        }
    }
    true
}
