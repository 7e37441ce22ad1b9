// Lines of functions, from the rows of a text.
ghost use Rattle.std.specs.Prelude.{◌≡◌, IfOk, OnOk};
ghost use Rattle.c65_asm.specs.Rows.{spelled, called, told};
ghost use Rattle.c65_asm.specs.Reading.{with_operand, operand_of, with_called, callee_of, with_row, line_of};

use crate::row::{Call, Row, Value};
use crate::table::Table;
use c65_code::{Callee, Line, Operand};
use std::alloc::AllocError;

fn operand_of(table: &mut Table, value: Value<'_>) -> Result<Operand, AllocError>
    ensures table { OnOk result (table.new ≡ with_operand table.old (spelled value.entry)) }
    ensures operand { IfOk result (λ operand. operand ≡ operand_of table.new (spelled value.entry)) }
{
    match value {
        Value::Nothing => Ok(Operand::Nothing),
        Value::Byte(value) => Ok(Operand::Byte(value)),
        Value::Low(symbol, offset) => {
            let sym = table.symbol(symbol)?;
            Ok(Operand::Low(sym, offset))
        }
        Value::High(symbol, offset) => {
            let sym = table.symbol(symbol)?;
            Ok(Operand::High(sym, offset))
        }
        Value::Zero(at) => Ok(Operand::Zero(at)),
        Value::At(symbol, offset) => {
            let sym = table.symbol(symbol)?;
            Ok(Operand::At(sym, offset))
        }
        Value::To(label) => Ok(Operand::To(label)),
    }
}

fn callee_of(table: &mut Table, call: Call<'_>) -> Result<Callee, AllocError>
    ensures table { OnOk result (table.new ≡ with_called table.old (called call.entry)) }
    ensures callee { IfOk result (λ callee. callee ≡ callee_of table.new (called call.entry)) }
{
    match call {
        Call::Routine(which) => Ok(Callee::Routine(which)),
        Call::Function(symbol, reads, gives) => {
            let sym = table.symbol(symbol)?;
            Ok(Callee::Function(sym, reads, gives))
        }
        Call::Pointer(reads, gives) => Ok(Callee::Pointer(reads, gives)),
    }
}

/// The line of a function that a row says; none where it says another thing.
pub fn line_of(table: &mut Table, row: Row<'_>) -> Result<Option<Line>, AllocError>
    ensures table { OnOk result (table.new ≡ with_row table.old (told row.entry)) }
    ensures line { IfOk result (λ line. line ≡ line_of table.new (told row.entry)) }
{
    match row {
        Row::Label(label) => Ok(Some(Line::Label(label))),
        Row::Do(op, mode, value) => {
            let operand = operand_of(table, value)?;
            Ok(Some(Line::Do(op, mode, operand)))
        }
        Row::Call(call) => {
            let callee = callee_of(table, call)?;
            Ok(Some(Line::Call(callee)))
        }
        _ => Ok(None),
    }
}
