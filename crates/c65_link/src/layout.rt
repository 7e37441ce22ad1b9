// Where the parts of an image stand.
ghost use Rattle.std.specs.Prelude.{◌≡◌, ◌%◌, length, slice_index, slice_set, OnOk, IfOk};
ghost use Rattle.c65_code.specs.Placement.{cell_size};
ghost use Rattle.c65_code.specs.Numbering.{number_of};
ghost use Rattle.c65_link.specs.Layouts.{empty_layout, with_size, with_symbol_at, with_lines, with_function, with_functions, with_routine, with_routines, with_target, with_targets, cells_end, with_datum, with_data, with_zeros, with_all_data, with_all_zeros, code_layout, layout_of};

use crate::body::Body;
use crate::symbols::Target;
use crate::uses::Part;
use c65_code::{Code, DataCell, Datum, DatumKind, Line, Routine, Seg, Sym};
use std::alloc::{AllocError, Global};
use std::marker::Model;

// The hooks of the simulator, in the order of their numbers.
const HOOKS: [u16; 6] = [0xFFF4, 0xFFF5, 0xFFF6, 0xFFF7, 0xFFF8, 0xFFF9];

/// The address of a number of bytes; beyond all addresses it wraps.
pub fn address(at: u64) -> u16
    ensures { result ≡ at % 65536 }
{
    (at % 65536) as u16
}

/// How many bytes the cells take.
pub fn cells_size(cells: &[DataCell]) -> u64
    ensures { result ≡ cells_end 0 cells.now }
{
    let mut size = 0_u64;
    for cell in cells {
        size = size.saturating_add(cell_bytes(cell));
    }
    size
}

fn cell_bytes(cell: &DataCell) -> u64
    ensures { result ≡ cell_size cell.now }
{
    match cell {
        DataCell::Byte(_) => 1,
        DataCell::Address(_, _) => 2,
    }
}

/// The next free address, and the addresses of symbols and of routines, each by its number.
#[derive(Drop)]
pub struct Layout {
    at: u64,
    symbols: Vec<u16>,
    routines: [u16; Routine::COUNT],
}

impl Model for Layout {
    ghost use Rattle.std.specs.Prelude.{◌≡◌, length};
    ghost use Rattle.c65_link.specs.Layouts.{Layout};

    ghost Value = { Layout };

    ghost view = { λ l. record { at = l.at; symbols = l.symbols.items; routines = l.routines } };

    ghost invariant = { λ l. length l.routines ≡ 123 };
}

impl Layout {
    fn new(alloc: Global, count: usize) -> Result<Layout, AllocError>
        ensures { IfOk result (λ layout. layout ≡ empty_layout count) }
    {
        let mut routines = [0; Routine::COUNT];
        routines[Routine::HookOpen.number()..].copy_from_slice(&HOOKS);
        Ok(Layout {
            at: 512,
            symbols: vec![in alloc; 0; count]?,
            routines,
        })
    }

    pub fn at(&self) -> u64
        ensures { result ≡ self.now.at }
    {
        self.at
    }

    pub fn symbols(&self) -> &[u16]
        ensures { result.now ≡ self.now.symbols }
    {
        &self.symbols
    }

    pub fn routines(&self) -> &[u16]
        ensures { result.now ≡ self.now.routines }
    {
        &self.routines
    }

    fn advance(&mut self, size: u64)
        ensures { self.new ≡ with_size self.old size }
    {
        self.at = self.at.saturating_add(size);
    }

    fn put_symbol(&mut self, symbol: usize, address: u16)
        ensures { self.new ≡ with_symbol_at self.old symbol address }
    {
        if let Some(slot) = self.symbols.get_mut(symbol) {
            *slot = address;
        }
    }

    fn put_lines(&mut self, alloc: Global, lines: &[Line]) -> Result<(), AllocError>
        ensures { OnOk result (self.new ≡ with_lines self.old lines.now) }
    {
        let body = Body::of(alloc, lines)?;
        self.advance(body.size());
        Ok(())
    }

    fn put_function(&mut self, alloc: Global, function: &(Sym, Seg)) -> Result<(), AllocError>
        ensures { OnOk result (self.new ≡ with_function self.old function.now) }
    {
        self.put_symbol(function.0.0 as usize, address(self.at));
        self.put_lines(alloc, function.1.lines())
    }

    fn put_functions(&mut self, alloc: Global, functions: &[(Sym, Seg)]) -> Result<(), AllocError>
        ensures { OnOk result (self.new ≡ with_functions self.old functions.now) }
    {
        for function in functions {
            self.put_function(alloc, function)?;
        }
        Ok(())
    }

    fn put_routine(&mut self, alloc: Global, part: &Part) -> Result<(), AllocError>
        ensures { OnOk result (self.new ≡ with_routine self.old part.now) }
    {
        self.routines[part.which().number()] = address(self.at);
        self.put_lines(alloc, part.lines())
    }

    fn put_routines(&mut self, alloc: Global, parts: &[Part]) -> Result<(), AllocError>
        ensures { OnOk result (self.new ≡ with_routines self.old parts.now) }
    {
        for part in parts {
            self.put_routine(alloc, part)?;
        }
        Ok(())
    }

    fn put_target(&mut self, at: usize, target: Target)
        ensures { self.new ≡ with_target self.old at target }
    {
        if let Target::Runtime(function) = target {
            let address = self.routines[Routine::Library(function).number()];
            self.put_symbol(at, address);
        }
    }

    fn put_targets(&mut self, targets: &[Target])
        ensures { self.new ≡ with_targets self.old 0 targets.now }
    {
        for (at, target) in targets.iter().enumerate() {
            self.put_target(at, *target);
        }
    }

    fn put_datum(&mut self, datum: &Datum, size: u64)
        ensures { self.new ≡ with_datum self.old datum.now size }
    {
        self.put_symbol(datum.sym.0 as usize, address(self.at));
        self.advance(size);
    }

    fn put_data(&mut self, datum: &Datum)
        ensures { self.new ≡ with_data datum.now.kind self.old datum.now }
    {
        if datum.kind != DatumKind::Zero {
            self.put_datum(datum, cells_size(datum.cells.as_slice()));
        }
    }

    fn put_zeros(&mut self, datum: &Datum)
        ensures { self.new ≡ with_zeros datum.now.kind self.old datum.now }
    {
        if datum.kind == DatumKind::Zero {
            self.put_datum(datum, u64::from(datum.zeros));
        }
    }

    fn put_all_data(&mut self, datums: &[Datum])
        ensures { self.new ≡ with_all_data self.old datums.now }
    {
        for datum in datums {
            self.put_data(datum);
        }
    }

    fn put_all_zeros(&mut self, datums: &[Datum])
        ensures { self.new ≡ with_all_zeros self.old datums.now }
    {
        for datum in datums {
            self.put_zeros(datum);
        }
    }

    fn of_code(
        alloc: Global,
        code: &Code,
        entry: &Part,
        parts: &[Part],
    ) -> Result<Layout, AllocError>
        ensures { IfOk result (λ layout. layout ≡ code_layout code.now entry.now parts.now) }
    {
        let mut layout = Layout::new(alloc, code.symbols.as_slice().len())?;
        layout.put_lines(alloc, entry.lines())?;
        layout.put_functions(alloc, code.functions.as_slice())?;
        layout.put_routines(alloc, parts)?;
        Ok(layout)
    }

    /// The entry, the functions, the routines, the data and the zero data, one behind another.
    pub fn of(
        alloc: Global,
        code: &Code,
        targets: &[Target],
        entry: &Part,
        parts: &[Part],
    ) -> Result<Layout, AllocError>
        ensures { IfOk result (λ layout. layout ≡ layout_of code.now targets.now entry.now parts.now) }
    {
        let mut layout = Layout::of_code(alloc, code, entry, parts)?;
        layout.put_targets(targets);
        layout.put_all_data(code.datums.as_slice());
        layout.put_all_zeros(code.datums.as_slice());
        Ok(layout)
    }
}
