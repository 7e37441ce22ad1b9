// Where initial values go.
ghost use Rattle.std.specs.Prelude.{◌≡◌, ◌≤◌, ◌++◌, IfErr, OnOk, Ok, Some, None, map, option_map, if◌then◌else◌};
ghost use Rattle.c65_base.specs.declared.refusal.Refusal.TheVariants.{OutOfMemory, At};
ghost use Rattle.c65_base.specs.Answers.{Gives};
ghost use Rattle.c65_ctype.specs.Sizes.{bytes_of};
ghost use Rattle.c65_csem.specs.Views.{typed_of, stmt_of, unit_of};
ghost use Rattle.c65_init_cells.specs.Addresses.{within_32};
ghost use Rattle.c65_init_cells.specs.Sinks.{sink_of, with_set, with_number, pointer_put, with_pointer, byte_set, beginning};

use crate::address::{Constant, constant_pointer};
use crate::cells::{put_bits, put_number, put_pointer};
use c65_base::{Code, Pos, Refusal};
use c65_csem::{Cell, Parts, TExpr, TKind, TStmt, int_type};
use c65_fold::fold;
use c65_ints::IntType;

/// Where initial values go: the object, the bytes of one that is there for the whole run, and the
/// statements that begin an automatic one, whose bit-fields go into the bytes.
#[derive(Drop)]
pub struct Sink {
    pub object: u32,
    pub is_automatic: bool,
    pub cells: Vec<Cell>,
    pub stmts: Vec<TStmt>,
}

/// A fault at a place.
pub fn fault(code: Code, pos: Pos) -> Refusal
    ensures { result ≡ At code pos }
{
    Refusal::At { code, pos }
}

/// Stores a value into an automatic object.
pub fn set(sink: &mut Sink, offset: u32, value: TExpr) -> Result<(), Refusal>
    ensures { Gives (λ x. sink_of sink.new) result (Ok (with_set (sink_of sink.old) offset (typed_of value))) }
{
    let mut value = value;
    fold(&mut value);
    sink.stmts.push(TStmt::Set(sink.object, offset, value))?;
    Ok(())
}

/// The bytes of an integer type.
pub(crate) fn bytes_of(kind: IntType) -> u32
    ensures exact { result ≡ bytes_of kind }
    ensures small { result ≤ 8 }
{
    match kind {
        IntType::SChar | IntType::UChar => 1,
        IntType::Short | IntType::UShort | IntType::Int | IntType::UInt => 2,
        IntType::Long | IntType::ULong => 4,
    }
}

/// A constant number, whose value is known, as a member, an element or a whole object.
pub fn store_number(
    sink: &mut Sink,
    offset: u32,
    kind: IntType,
    bits: Option<(u8, u8)>,
    value: TExpr,
    known: i64,
) -> Result<(), Refusal>
    ensures { Gives (λ x. sink_of sink.new) result (Ok (with_number (sink_of sink.old) offset kind bits (typed_of value) known)) }
{
    match bits {
        Some((lowest, width)) => {
            put_bits(&mut sink.cells, offset, lowest, width, known)?;
            Ok(())
        }
        None => {
            if sink.is_automatic {
                return set(sink, offset, value);
            }
            put_number(&mut sink.cells, offset, bytes_of(kind), known)?;
            Ok(())
        }
    }
}

/// A number that 32 bits hold.
#[tactic(auto, using(crate::proofs::Ranges::narrow_is))]
fn narrow(value: i64) -> Option<i32>
    ensures { result ≡ (if within_32 value then Some value else None) }
{
    i32::try_from(value).ok()
}

/// A constant pointer into the bytes of an object.
fn put_constant(
    cells: &mut Vec<Cell>,
    offset: u32,
    constant: Constant,
    pos: Pos,
) -> Result<(), Refusal>
    ensures { Gives (λ x. cells.new.items) result (pointer_put cells.old.items offset pos constant) }
{
    match constant {
        Constant::Number(known) => {
            put_number(cells, offset, 2, known)?;
            Ok(())
        }
        Constant::At(target, distance) => match narrow(distance) {
            Some(distance) => {
                put_pointer(cells, offset, target, distance)?;
                Ok(())
            }
            None => Err(fault(Code::ConstantValue, pos)),
        },
    }
}

/// A constant pointer as a member, an element or a whole object. Refuses `NotConstant`, and
/// `ConstantValue` where it is too far from what it names.
pub fn store_pointer(
    parts: &Parts,
    sink: &mut Sink,
    offset: u32,
    value: TExpr,
    pos: Pos,
) -> Result<(), Refusal>
    ensures { Gives (λ x. sink_of sink.new) result (with_pointer (unit_of parts.now) (sink_of sink.old) offset (typed_of value) pos) }
{
    let mut value = value;
    fold(&mut value);
    let Some(constant) = constant_pointer(parts, &value) else {
        return Err(fault(Code::NotConstant, pos));
    };
    if sink.is_automatic {
        return set(sink, offset, value);
    }
    put_constant(&mut sink.cells, offset, constant, pos)
}

/// The statement that stores a byte which is not zero.
fn set_byte(object: u32, offset: u32, cell: Cell) -> Option<TStmt>
    ensures { option_map stmt_of result ≡ byte_set object offset cell }
{
    match cell {
        Cell::Byte(0) => None,
        Cell::Byte(byte) => {
            let value = TExpr {
                ty: int_type(IntType::UChar),
                kind: TKind::Const(byte as i64),
            };
            Some(TStmt::Set(object, offset, value))
        }
        Cell::Piece(_, _, _) => None,
    }
}

/// Adds the statements that begin an automatic object, and behind them those that store its bytes
/// which are not zero.
pub fn begin_automatic(sink: Sink, stmts: &mut Vec<TStmt>) -> Result<(), Refusal>
    ensures exact { OnOk result (map stmt_of stmts.new.items ≡ map stmt_of stmts.old.items ++ beginning (sink_of sink)) }
    ensures refused { IfErr result (λ e. e ≡ OutOfMemory) }
{
    let Sink {
        object,
        cells,
        stmts: first,
        ..
    } = sink;
    for stmt in first {
        stmts.push(stmt)?;
    }
    let mut offset: u32 = 0;
    for cell in &cells {
        if let Some(stmt) = set_byte(object, offset, *cell) {
            stmts.push(stmt)?;
        }
        offset = offset.saturating_add(1);
    }
    Ok(())
}
