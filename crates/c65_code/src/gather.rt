// The string literals of a code.
ghost use Rattle.std.specs.Prelude.{◌≡◌, IfOk, IfErr};
ghost use Rattle.c65_base.specs.declared.refusal.Refusal.TheVariants.{OutOfMemory};
ghost use Rattle.c65_code.specs.Literals.{bytes_of, is_literal, literals_of};

use crate::code::{Bytes, Code, DataCell, Literals, Symbol};
use crate::items::Items;
use crate::line::Sym;
use c65_base::Refusal;
use std::alloc::{AllocError, Global};

fn has_literal(symbols: &[Symbol], sym: Sym) -> bool
    ensures { result ≡ is_literal symbols.now sym }
{
    match symbols.get(sym.0 as usize) {
        Some(symbol) => symbol.literal,
        None => false,
    }
}

fn cell_bytes(alloc: Global, cells: &[DataCell]) -> Result<Bytes, AllocError>
    ensures { IfOk result (λ bytes. bytes ≡ bytes_of cells.now) }
{
    let mut bytes = Vec::new(alloc);
    for cell in cells {
        if let DataCell::Byte(byte) = cell {
            bytes.push(*byte)?;
        }
    }
    Ok(Bytes::from_vec(bytes))
}

/// The literals in the order of their data, each with its bytes.
pub fn literals(alloc: Global, code: &Code) -> Result<Literals, Refusal>
    ensures items { IfOk result (λ literals. literals.items ≡ literals_of code.now.symbols code.now.datums) }
    ensures refused { IfErr result (λ refusal. refusal ≡ OutOfMemory) }
{
    let mut items = Vec::new(alloc);
    for datum in code.datums.as_slice() {
        if has_literal(code.symbols.as_slice(), datum.sym) {
            let bytes = cell_bytes(alloc, datum.cells.as_slice())?;
            items.push((datum.sym, bytes))?;
        }
    }
    Ok(Literals {
        items: Items::from_vec(items),
    })
}
