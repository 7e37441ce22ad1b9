// The data of a program.
ghost use Rattle.std.specs.Prelude.{◌≡◌, ◌≤◌, ◌^◌, length, map, IfOk, IfErr, OnOk};
ghost use Rattle.c65_base.specs.declared.refusal.Refusal.TheVariants.{OutOfMemory};
ghost use Rattle.c65_ctype.specs.Views.{qty_of, types_of};
ghost use Rattle.c65_csem.specs.Places.{is_fixed};
ghost use Rattle.c65_csem.specs.Views.{object_of};
ghost use Rattle.c65_gendata.specs.Data.{is_const, filled, blank, object_datum, is_lasting, is_placed, with_object, with_objects, with_literals, data_of};

use crate::cells::{are_zero, cells_of, literal_cells, zero_cells};
use c65_base::{Refusal, Text as Bytes};
use c65_code::{DataCell, Datum, DatumKind, Items, Sym};
use c65_csem::{Class, Parts, TObject, TProgram};
use c65_ctype::{CType, QType};
use c65_genframe::{Numbers, bytes_or};
use std::alloc::{AllocError, Global};

/// Whether an object of the type may not be written: the qualifiers of an array are those of its
/// elements (C90 6.5.3).
fn is_const(q: &QType) -> bool
    ensures { result ≡ is_const (qty_of q.now) }
{
    match &q.ty {
        CType::Array(element, _) => is_const(element),
        _ => q.is_const,
    }
}

/// Data of cells.
fn filled(sym: Sym, constant: bool, cells: Vec<DataCell>) -> Datum
    ensures { result ≡ filled sym constant cells.items }
{
    Datum {
        sym,
        kind: if constant {
            DatumKind::Const
        } else {
            DatumKind::Data
        },
        cells: Items::from_vec(cells),
        zeros: 0,
    }
}

/// Zero bytes, so many.
fn blank(alloc: Global, sym: Sym, constant: bool, bytes: u32) -> Result<Datum, AllocError>
    ensures { IfOk result (λ d. d ≡ blank sym constant bytes) }
{
    if constant {
        return Ok(filled(sym, true, zero_cells(alloc, bytes)?));
    }
    Ok(Datum {
        sym,
        kind: DatumKind::Zero,
        cells: Items::from_vec(Vec::new(alloc)),
        zeros: bytes,
    })
}

/// Whether an object of a block has one place for the whole run.
fn is_fixed(class: Class) -> bool
    ensures { result ≡ is_fixed class }
{
    match class {
        Class::Fixed => true,
        _ => false,
    }
}

/// The data of an object. One of a block begins as zero bytes that may be written.
fn object_datum(
    alloc: Global,
    numbers: Numbers,
    object: &TObject,
    sym: Sym,
    bytes: u32,
) -> Result<Datum, AllocError>
    ensures { IfOk result (λ d. d ≡ object_datum numbers (object_of object.now) sym bytes) }
{
    if is_fixed(object.class) {
        return blank(alloc, sym, false, bytes);
    }
    let constant = is_const(&object.ty);
    match &object.init {
        Some(cells) if !are_zero(cells) => {
            let items = cells_of(alloc, numbers, cells)?;
            Ok(filled(sym, constant, items))
        }
        _ => blank(alloc, sym, constant, bytes),
    }
}

/// Whether an object lives as long as the program (C90 6.1.2.4) and is defined.
fn is_lasting(class: Class) -> bool
    ensures { result ≡ is_lasting class }
{
    match class {
        Class::External | Class::Tentative | Class::Static => true,
        Class::Declared | Class::Auto | Class::Register | Class::Fixed => false,
    }
}

/// Whether an object has one place for the whole run.
fn is_placed(class: Class) -> bool
    ensures { result ≡ is_placed class }
{
    is_lasting(class) || is_fixed(class)
}

/// Adds the data of an object, unless it has a home in a frame or is only declared.
fn add_object(
    alloc: Global,
    parts: &Parts,
    numbers: Numbers,
    object: &TObject,
    sym: Sym,
    into: &mut Vec<Datum>,
) -> Result<(), AllocError>
    ensures { OnOk result (into.new.items ≡ with_object (types_of parts.now.types) numbers (object_of object.now) sym into.old.items) }
{
    if !is_placed(object.class) {
        return Ok(());
    }
    let bytes = bytes_or(&parts.types, &object.ty.ty, 65_536);
    let datum = object_datum(alloc, numbers, object, sym, bytes)?;
    into.push(datum)?;
    Ok(())
}

fn add_objects(
    alloc: Global,
    parts: &Parts,
    numbers: Numbers,
    into: &mut Vec<Datum>,
) -> Result<(), AllocError>
    requires { length parts.now.objects.items ≤ 2 ^ 32 }
    ensures { OnOk result (into.new.items ≡ with_objects (types_of parts.now.types) numbers 0 (map object_of parts.now.objects.items) into.old.items) }
{
    for (number, object) in parts.objects.iter().enumerate() {
        let sym = numbers.object(number as u32);
        add_object(alloc, parts, numbers, object, sym, into)?;
    }
    Ok(())
}

fn add_literals(
    alloc: Global,
    literals: &[Bytes],
    numbers: Numbers,
    into: &mut Vec<Datum>,
) -> Result<(), AllocError>
    requires { length literals.now ≤ 2 ^ 32 }
    ensures { OnOk result (into.new.items ≡ with_literals numbers 0 literals.now into.old.items) }
{
    for (number, bytes) in literals.iter().enumerate() {
        let cells = literal_cells(alloc, bytes)?;
        into.push(filled(numbers.literal(number as u32), true, cells))?;
    }
    Ok(())
}

/// The data of a program: those of its external and static objects and of those of blocks that have
/// one place for the whole run, and then those of its string
/// literals, each in the order of their numbers. An object without an initial value, or with zero
/// bytes alone, is of kind Zero, unless it is const; one of a block is always so. Refuses for want of memory alone.
pub fn gen_data(alloc: Global, program: &TProgram) -> Result<Vec<Datum>, Refusal>
    ensures data { IfOk result (λ v. v.items ≡ data_of program.now.0) }
    ensures refused { IfErr result (λ e. e ≡ OutOfMemory) }
{
    let parts = program.unit().parts();
    let numbers = Numbers::of(parts)?;
    let mut datums = Vec::new(alloc);
    add_objects(alloc, parts, numbers, &mut datums)?;
    add_literals(alloc, &parts.literals, numbers, &mut datums)?;
    Ok(datums)
}
