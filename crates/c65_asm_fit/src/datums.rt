// Whether data can be written.
ghost use Rattle.std.specs.Prelude.{◌↔◌, All, IsTrue};
ghost use Rattle.c65_code.specs.Writable.{IsShaped};
ghost use Rattle.c65_asm_fit.specs.Fit.{IsCellFit, IsDatumFit};

use crate::functions::is_known;
use c65_code::{DataCell, Datum, DatumKind};

fn is_shaped(kind: DatumKind, cells: usize, zeros: u32) -> bool
    ensures { IsTrue result ↔ IsShaped kind cells zeros }
{
    match kind {
        DatumKind::Zero => cells == 0,
        DatumKind::Data | DatumKind::Const => 1 <= cells && zeros == 0,
    }
}

fn is_cell_fit(count: usize, cell: DataCell) -> bool
    ensures { IsTrue result ↔ IsCellFit count cell }
{
    match cell {
        DataCell::Byte(_) => true,
        DataCell::Address(sym, _) => is_known(count, sym),
    }
}

fn are_cells_fit(count: usize, cells: &[DataCell]) -> bool
    ensures { IsTrue result ↔ All (IsCellFit count) cells.now }
{
    cells.iter().all(|cell| is_cell_fit(count, *cell))
}

fn is_datum_fit(count: usize, datum: &Datum) -> bool
    ensures { IsTrue result ↔ IsDatumFit count datum.now }
{
    let cells = datum.cells.as_slice();
    is_known(count, datum.sym)
        && is_shaped(datum.kind, cells.len(), datum.zeros)
        && are_cells_fit(count, cells)
}

pub fn are_datums_fit(count: usize, datums: &[Datum]) -> bool
    ensures { IsTrue result ↔ All (IsDatumFit count) datums.now }
{
    datums.iter().all(|datum| is_datum_fit(count, datum))
}
