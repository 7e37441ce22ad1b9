// A text line by line: what is finished, and what is open.
ghost use Rattle.std.specs.Prelude.{◌≡◌, ◌++◌, ◌∷◌, [], map, true, Some, None, if◌then◌else◌, option_map, IfOk, OnOk, IsTrue};
ghost use Rattle.std.specs.List.{list_all};
ghost use Rattle.c65_code.specs.Segments.{is_among, labels_of, targets_of, is_closing, closed_by, is_closed};
ghost use Rattle.c65_asm.specs.Rows.{told};
ghost use Rattle.c65_asm.specs.Opened.{OpenedFunction};
ghost use Rattle.c65_asm.specs.Symbols.{symbols_of};
ghost use Rattle.c65_asm.specs.Read.{seen, on_if, PutsBytes, Begins, finished_at, finished};
ghost use Rattle.c65_asm.specs.Reading.{start, is_new, with_line, may_end, closed, bytes_in, with_values, with_bytes, with_address, datum_of, begun, named, symbol_now, begin_function, begin_data, zero_datum, with_datum, put_zeros, head, top, with_function, opened_function, put_row, in_function, opened_datum, put_address, in_data, step_in, step, new_function, new_datum};

use crate::lines::line_of;
use crate::row::{Row, row_of};
use crate::table::{Numbers, Table};
use crate::words::byte;
use c65_code::{
    Code, DataCell, Datum, DatumKind, Draft, Items, Line, Operand, RegSet, Seg, Sym, Symbol,
};
use c65_mach::Op;
use std::alloc::{AllocError, Global};
use std::marker::Model;
use std::mem;

/// A function whose end has not come.
#[derive(Drop)]
struct OpenFunction {
    sym: Sym,
    draft: Draft,
    labels: Numbers,
}

impl Model for OpenFunction {
    ghost use Rattle.std.specs.Prelude.{◌≡◌, IsTrue};
    ghost use Rattle.std.specs.List.{list_all};
    ghost use Rattle.c65_code.specs.Segments.{is_fit, is_distinct, labels_of};
    ghost use Rattle.c65_asm.specs.Opened.{OpenedFunction};

    ghost Value = { OpenedFunction };

    ghost view = { λ f. record { sym = f.sym; out = f.draft.out; lines = f.draft.lines } };

    ghost invariant = { λ f. (f.labels ≡ labels_of f.draft.lines) × IsTrue (list_all is_fit f.draft.lines) × IsTrue (is_distinct f.labels) };
}

/// Data whose end has not come, and whether the last line of bytes has room.
#[derive(Drop)]
struct OpenData {
    sym: Sym,
    kind: DatumKind,
    cells: Vec<DataCell>,
    has_room: bool,
}

impl Model for OpenData {
    ghost use Rattle.c65_asm.specs.Opened.{OpenedDatum};

    ghost Value = { OpenedDatum };

    ghost view = { λ d. record { sym = d.sym; kind = d.kind; cells = d.cells.items; has_room = d.has_room } };
}

#[derive(Drop)]
enum Open {
    /// Nothing, before the first line.
    Start,
    /// Nothing; functions may follow, and data.
    Functions,
    /// Nothing; data alone may follow.
    Data,
    Function(OpenFunction),
    Datum(OpenData),
}

/// What the lines so far say.
#[derive(Drop)]
pub struct Reader {
    alloc: Global,
    table: Table,
    bodies: Numbers,
    functions: Vec<(Sym, Seg)>,
    datums: Vec<Datum>,
    main_args: bool,
    opened: Open,
}

// Whether each label that the lines name is one of these.
fn have_labels(labels: &Numbers, lines: &[Line]) -> bool
    ensures { result ≡ list_all (is_among labels.now) (targets_of lines.now) }
{
    for line in lines {
        if let Line::Do(_, _, Operand::To(label)) = line {
            if !labels.has(*label) {
                return false;
            }
        }
    }
    true
}

fn is_closing(line: &Line) -> bool
    ensures { result ≡ is_closing line.now }
{
    match line {
        Line::Do(op, _, _) => matches!(op, Op::Rts | Op::Jmp),
        Line::Label(_) | Line::Call(_) => false,
    }
}

fn is_closed(lines: &[Line]) -> bool
    ensures { result ≡ is_closed lines.now }
{
    let mut closed = false;
    for line in lines {
        closed = is_closing(line);
    }
    closed
}

fn is_new(labels: &Numbers, line: &Line) -> bool
    ensures { (lines : _) → labels.now ≡ labels_of lines → result ≡ is_new lines line.now }
{
    match line {
        Line::Label(label) => !labels.has(*label),
        Line::Do(_, _, _) | Line::Call(_) => true,
    }
}

// The labels with that of a line.
fn add_label(labels: &mut Numbers, line: &Line) -> Result<(), AllocError>
    ensures { (lines : _) → labels.old ≡ labels_of lines → IsTrue (is_new lines line.now) → OnOk result (labels.new ≡ labels_of (lines ++ line.now ∷ [])) }
{
    match line {
        Line::Label(label) => {
            labels.add(*label)?;
            Ok(())
        }
        Line::Do(_, _, _) => Ok(()),
        Line::Call(_) => Ok(()),
    }
}

impl OpenFunction {
    fn new(alloc: Global, sym: Sym, out: RegSet) -> OpenFunction
        ensures { result ≡ record { sym = sym; out = out; lines = [] } }
    {
        OpenFunction {
            sym,
            draft: Draft::new(alloc, out),
            labels: Numbers::new(alloc),
        }
    }

    // With one line more, where it may stand here.
    fn with_line(self, line: Line) -> Result<Option<OpenFunction>, AllocError>
        ensures { IfOk result (λ opened. opened ≡ with_line self line) }
    {
        let OpenFunction {
            sym,
            mut draft,
            mut labels,
        } = self;
        if !line.is_fit() || !is_new(&labels, &line) {
            drop(draft);
            drop(labels);
            return Ok(None);
        }
        match add_label(&mut labels, &line) {
            Ok(()) => {}
            Err(error) => {
                drop(draft);
                drop(labels);
                return Err(error);
            }
        }
        match draft.push(line) {
            Ok(()) => Ok(Some(OpenFunction { sym, draft, labels })),
            Err(refusal) => {
                drop(refusal);
                drop(draft);
                drop(labels);
                Err(AllocError)
            }
        }
    }

    // The function, where it may end here.
    fn closed(self) -> Option<(Sym, Seg)>
        ensures { result ≡ closed self }
    {
        let OpenFunction { sym, draft, labels } = self;
        if have_labels(&labels, draft.lines()) && is_closed(draft.lines()) {
            Some((sym, draft.close()))
        } else {
            None
        }
    }
}

// Bytes with commas between them.
fn put_bytes(cells: &mut Vec<DataCell>, text: &[u8]) -> Result<bool, AllocError>
    ensures { IfOk result (λ is_well. PutsBytes cells.old.items cells.new.items (bytes_in text.now) is_well) }
{
    let mut rest = text;
    while rest.len() > 3 {
        if rest[3] != b',' {
            return Ok(false);
        }
        let Some(value) = byte(&rest[..3]) else {
            return Ok(false);
        };
        cells.push(DataCell::Byte(value))?;
        rest = &rest[4..];
    }
    let Some(value) = byte(rest) else {
        return Ok(false);
    };
    cells.push(DataCell::Byte(value))?;
    Ok(true)
}

impl OpenData {
    // 1 to 16 bytes with commas between them; a line that has room is not followed by another one.
    fn with_bytes(self, text: &[u8]) -> Result<Option<OpenData>, AllocError>
        ensures { IfOk result (λ opened. opened ≡ with_bytes self text.now) }
    {
        let OpenData {
            sym,
            kind,
            mut cells,
            has_room,
        } = self;
        if has_room {
            return Ok(None);
        }
        let before = cells.len();
        if !put_bytes(&mut cells, text)? {
            return Ok(None);
        }
        let count = cells.len() - before;
        if count > 16 {
            return Ok(None);
        }
        Ok(Some(OpenData {
            sym,
            kind,
            cells,
            has_room: count < 16,
        }))
    }

    fn with_address(self, at: Sym, offset: u16) -> Result<OpenData, AllocError>
        ensures { IfOk result (λ opened. opened ≡ with_address self at offset) }
    {
        let OpenData {
            sym,
            kind,
            mut cells,
            ..
        } = self;
        cells.push(DataCell::Address(at, offset))?;
        Ok(OpenData {
            sym,
            kind,
            cells,
            has_room: false,
        })
    }

    // The datum, where it may end here.
    fn closed(self) -> Option<Datum>
        ensures { result ≡ datum_of self }
    {
        let OpenData {
            sym,
            kind,
            cells,
            ..
        } = self;
        if cells.is_empty() {
            return None;
        }
        Some(Datum {
            sym,
            kind,
            cells: Items::from_vec(cells),
            zeros: 0,
        })
    }
}

impl Reader {
    /// Nothing, before the first line.
    pub fn new(alloc: Global) -> Reader
        ensures { seen result ≡ start }
    {
        Reader {
            alloc,
            table: Table::new(alloc),
            bodies: Numbers::new(alloc),
            functions: Vec::new(alloc),
            datums: Vec::new(alloc),
            main_args: false,
            opened: Open::Start,
        }
    }

    // Gives a symbol a body, if it has none, and says whether it had none.
    fn begin(&mut self, symbol: &[u8]) -> Result<(Sym, bool), AllocError>
        ensures { IfOk result (λ begun. Begins (seen self.old) symbol.now (seen self.new) begun.0 begun.1) }
    {
        let sym = self.table.symbol(symbol)?;
        let is_new = self.bodies.add(sym.0)?;
        Ok((sym, is_new))
    }

    // Opens this. What was open is dropped here and nowhere else.
    fn set_opened(&mut self, opened: Open)
        ensures { seen self.new ≡ record (seen self.old) { opened = opened } }
    {
        self.opened = opened;
    }

    fn begin_function(&mut self, symbol: &[u8], out: RegSet) -> Result<bool, AllocError>
        ensures { IfOk result (λ is_on. on_if is_on (seen self.new) ≡ begin_function (seen self.old) symbol.now out) }
    {
        let (sym, is_new) = self.begin(symbol)?;
        if is_new {
            self.set_opened(Open::Function(OpenFunction::new(self.alloc, sym, out)));
        }
        Ok(is_new)
    }

    fn begin_data(&mut self, kind: DatumKind, symbol: &[u8]) -> Result<bool, AllocError>
        ensures { IfOk result (λ is_on. on_if is_on (seen self.new) ≡ begin_data (seen self.old) kind symbol.now) }
    {
        let (sym, is_new) = self.begin(symbol)?;
        if is_new {
            let cells = Vec::new(self.alloc);
            self.set_opened(Open::Datum(OpenData {
                sym,
                kind,
                cells,
                has_room: false,
            }));
        }
        Ok(is_new)
    }

    fn put_datum(&mut self, datum: Datum) -> Result<(), AllocError>
        ensures { OnOk result (seen self.new ≡ with_datum (seen self.old) datum) }
    {
        self.datums.push(datum)?;
        self.set_opened(Open::Data);
        Ok(())
    }

    fn put_zeros(&mut self, symbol: &[u8], zeros: u32) -> Result<bool, AllocError>
        ensures { IfOk result (λ is_on. on_if is_on (seen self.new) ≡ put_zeros (seen self.old) symbol.now zeros) }
    {
        let (sym, is_new) = self.begin(symbol)?;
        if !is_new {
            return Ok(false);
        }
        let cells = Items::from_vec(Vec::new(self.alloc));
        self.put_datum(Datum {
            sym,
            kind: DatumKind::Zero,
            cells,
            zeros,
        })?;
        Ok(true)
    }

    fn head(&mut self, row: Row<'_>) -> bool
        ensures { on_if result (seen self.new) ≡ head (seen self.old) (told row.entry) }
    {
        match row {
            Row::Head(main_args) => {
                self.main_args = main_args;
                self.set_opened(Open::Functions);
                true
            }
            _ => false,
        }
    }

    // A row where nothing is open.
    fn top(&mut self, functions_too: bool, row: Row<'_>) -> Result<bool, AllocError>
        ensures { IfOk result (λ is_on. on_if is_on (seen self.new) ≡ top (seen self.old) functions_too (told row.entry)) }
    {
        match row {
            Row::Function(symbol, out) => {
                if functions_too {
                    self.begin_function(symbol, out)
                } else {
                    Ok(false)
                }
            }
            Row::Data(kind, symbol) => self.begin_data(kind, symbol),
            Row::Zeros(symbol, zeros) => self.put_zeros(symbol, zeros),
            _ => Ok(false),
        }
    }

    fn end_function(&mut self, opened: OpenFunction) -> Result<bool, AllocError>
        ensures { IfOk result (λ is_on. on_if is_on (seen self.new) ≡ option_map (with_function (seen self.old)) (closed opened)) }
    {
        let Some(function) = opened.closed() else {
            return Ok(false);
        };
        self.functions.push(function)?;
        self.set_opened(Open::Functions);
        Ok(true)
    }

    fn put_code(&mut self, opened: OpenFunction, line: Line) -> Result<bool, AllocError>
        ensures { IfOk result (λ is_on. on_if is_on (seen self.new) ≡ option_map (opened_function (seen self.old) (seen self.old).names) (with_line opened line)) }
    {
        let Some(opened) = opened.with_line(line)? else {
            return Ok(false);
        };
        self.set_opened(Open::Function(opened));
        Ok(true)
    }

    fn put_row(&mut self, opened: OpenFunction, row: Row<'_>) -> Result<bool, AllocError>
        ensures { IfOk result (λ is_on. on_if is_on (seen self.new) ≡ put_row (seen self.old) opened (told row.entry)) }
    {
        match line_of(&mut self.table, row) {
            Ok(Some(line)) => self.put_code(opened, line),
            Ok(None) => {
                drop(opened);
                Ok(false)
            }
            Err(error) => {
                drop(opened);
                Err(error)
            }
        }
    }

    fn in_function(&mut self, opened: OpenFunction, row: Row<'_>) -> Result<bool, AllocError>
        ensures { IfOk result (λ is_on. on_if is_on (seen self.new) ≡ in_function (seen self.old) opened (told row.entry)) }
    {
        match row {
            Row::End => self.end_function(opened),
            Row::Label(_) => self.put_row(opened, row),
            Row::Do(_, _, _) => self.put_row(opened, row),
            Row::Call(_) => self.put_row(opened, row),
            _ => {
                drop(opened);
                Ok(false)
            }
        }
    }

    fn end_data(&mut self, opened: OpenData) -> Result<bool, AllocError>
        ensures { IfOk result (λ is_on. on_if is_on (seen self.new) ≡ option_map (with_datum (seen self.old)) (datum_of opened)) }
    {
        let Some(datum) = opened.closed() else {
            return Ok(false);
        };
        self.put_datum(datum)?;
        Ok(true)
    }

    fn put_bytes(&mut self, opened: OpenData, text: &[u8]) -> Result<bool, AllocError>
        ensures { IfOk result (λ is_on. on_if is_on (seen self.new) ≡ option_map (opened_datum (seen self.old)) (with_bytes opened text.now)) }
    {
        let Some(opened) = opened.with_bytes(text)? else {
            return Ok(false);
        };
        self.set_opened(Open::Datum(opened));
        Ok(true)
    }

    fn put_address(
        &mut self,
        opened: OpenData,
        symbol: &[u8],
        offset: u16,
    ) -> Result<(), AllocError>
        ensures { OnOk result (seen self.new ≡ put_address (seen self.old) opened symbol.now offset) }
    {
        match self.table.symbol(symbol) {
            Ok(sym) => {
                let opened = opened.with_address(sym, offset)?;
                self.set_opened(Open::Datum(opened));
                Ok(())
            }
            Err(error) => {
                drop(opened);
                Err(error)
            }
        }
    }

    fn in_data(&mut self, opened: OpenData, row: Row<'_>) -> Result<bool, AllocError>
        ensures { IfOk result (λ is_on. on_if is_on (seen self.new) ≡ in_data (seen self.old) opened (told row.entry)) }
    {
        match row {
            Row::End => self.end_data(opened),
            Row::Bytes(text) => self.put_bytes(opened, text),
            Row::Address(symbol, offset) => {
                self.put_address(opened, symbol, offset)?;
                Ok(true)
            }
            _ => {
                drop(opened);
                Ok(false)
            }
        }
    }

    fn put_told(&mut self, row: Row<'_>) -> Result<bool, AllocError>
        ensures { IfOk result (λ is_on. on_if is_on (seen self.new) ≡ step_in (seen self.old) (seen self.old).opened (told row.entry)) }
    {
        match mem::replace(&mut self.opened, Open::Start) {
            Open::Start => Ok(self.head(row)),
            Open::Functions => self.top(true, row),
            Open::Data => self.top(false, row),
            Open::Function(opened) => self.in_function(opened, row),
            Open::Datum(opened) => self.in_data(opened, row),
        }
    }

    /// Takes one line more, without its line feed, and says whether a text goes on so. Where none does, the reader is of no
    /// more use.
    pub fn put_line(&mut self, line: &[u8]) -> Result<bool, AllocError>
        ensures { IfOk result (λ is_on. on_if is_on (seen self.new) ≡ step (seen self.old) line.now) }
    {
        match row_of(line) {
            Some(row) => self.put_told(row),
            None => Ok(false),
        }
    }

    fn may_end(&self) -> bool
        ensures { (code : _) → finished_at self.now.opened code ≡ if result then Some code else None }
    {
        matches!(self.opened, Open::Functions | Open::Data)
    }

    fn into_code(self, symbols: Vec<Symbol>) -> Code
        ensures { result ≡ record { symbols = symbols.items; functions = self.functions.items; datums = self.datums.items; main_args = self.main_args } }
    {
        let Reader {
            table,
            bodies,
            functions,
            datums,
            main_args,
            opened,
            ..
        } = self;
        drop(table);
        drop(bodies);
        drop(opened);
        Code {
            symbols: Items::from_vec(symbols),
            functions: Items::from_vec(functions),
            datums: Items::from_vec(datums),
            main_args,
        }
    }

    /// The code, where the text may end here.
    pub fn finish(self) -> Result<Option<Code>, AllocError>
        ensures { IfOk result (λ code. code ≡ finished (seen self)) }
    {
        if !self.may_end() {
            drop(self);
            return Ok(None);
        }
        match self.table.symbols(self.alloc) {
            Ok(symbols) => Ok(Some(self.into_code(symbols))),
            Err(error) => {
                drop(self);
                Err(error)
            }
        }
    }
}
