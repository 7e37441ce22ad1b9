// Segments, sets, labels and literals.
ghost use Rattle.std.specs.Prelude.{◌≡◌, ◌∷◌, [], IfOk, OnOk};

use c65_base::{Refusal, Text};
use c65_code::{
    Code, DataCell, Datum, DatumKind, Draft, Items, Line, Operand, Part, RegSet, Seg, Sym, Symbol,
    has_opcode, is_segment, literals,
};
use c65_mach::{Mode, Op};
use std::alloc::Global;

const FIVE: Line = Line::Do(Op::Lda, Mode::Immediate, Operand::Byte(5));

const BACK: Line = Line::Do(Op::Rts, Mode::Implied, Operand::Nothing);

const MARK: Line = Line::Label(7);

fn two_lines(draft: &mut Draft) -> Result<(), Refusal>
    requires { draft.old.lines ≡ [] }
    ensures { OnOk result (draft.new.lines ≡ FIVE ∷ BACK ∷ []) }
{
    draft.push(FIVE)?;
    draft.push(BACK)?;
    Ok(())
}

fn close_two(draft: Draft) -> Seg
    requires { draft.lines ≡ FIVE ∷ BACK ∷ [] }
    ensures { result.lines ≡ FIVE ∷ BACK ∷ [] }
{
    draft.close()
}

fn insert_mark(seg: &mut Seg) -> Result<(), Refusal>
    requires { seg.old.lines ≡ FIVE ∷ BACK ∷ [] }
    ensures { OnOk result (seg.new.lines ≡ MARK ∷ FIVE ∷ BACK ∷ []) }
{
    seg.insert(0, MARK)
}

fn replace_two(seg: &mut Seg) -> Result<(), Refusal>
    requires { seg.old.lines ≡ MARK ∷ FIVE ∷ BACK ∷ [] }
{
    seg.replace(0, 2, &[BACK])
}

/// Two lines with a third one before them.
fn changed(alloc: Global) -> Result<Seg, Refusal>
    ensures { IfOk result (λ s. s.lines ≡ MARK ∷ FIVE ∷ BACK ∷ []) }
{
    let mut draft = Draft::new(alloc, RegSet::empty().with(Part::A));
    two_lines(&mut draft)?;
    let mut seg = close_two(draft);
    insert_mark(&mut seg)?;
    Ok(seg)
}

fn symbol(alloc: Global, spelling: &[u8], literal: bool) -> Result<Symbol, Refusal> {
    let spelling = Text::copy_of(alloc, spelling)?;
    Ok(Symbol { spelling, literal })
}

fn datum(alloc: Global, sym: u32, kind: DatumKind, cells: &[DataCell]) -> Result<Datum, Refusal> {
    Ok(Datum {
        sym: Sym(sym),
        kind,
        cells: Items::from_vec(Vec::from_slice(alloc, cells)?),
        zeros: 0,
    })
}

/// Data, and the literal "H".
fn code(alloc: Global) -> Result<Code, Refusal> {
    let mut symbols = Vec::new(alloc);
    symbols.push(symbol(alloc, b"s0", false)?)?;
    symbols.push(symbol(alloc, b"q1", true)?)?;
    let mut datums = Vec::new(alloc);
    datums.push(datum(alloc, 0, DatumKind::Data, &[DataCell::Byte(1)])?)?;
    let bytes = [DataCell::Byte(72), DataCell::Byte(0)];
    datums.push(datum(alloc, 1, DatumKind::Const, &bytes)?)?;
    Ok(Code {
        symbols: Items::from_vec(symbols),
        functions: Items::from_vec(Vec::new(alloc)),
        datums: Items::from_vec(datums),
        main_args: false,
    })
}

/// Which of these lines are a segment.
fn segments() -> [bool; 5] {
    let branch = Line::Do(Op::Bne, Mode::Relative, Operand::To(7));
    [
        is_segment(&[MARK, branch, BACK]),
        is_segment(&[branch, BACK]),
        is_segment(&[MARK, MARK, BACK]),
        is_segment(&[FIVE]),
        is_segment(&[]),
    ]
}

fn show_changes(rt: &HostRuntime) -> Result<(), anyhow::Error> {
    let mut seg = changed(rt.alloc())?;
    println!(rt; "{:?}", seg.lines())?;
    replace_two(&mut seg)?;
    println!(rt; "{:?}", seg.lines())?;
    println!(rt; "gives A {}", seg.out() == RegSet::empty().with(Part::A))?;
    Ok(())
}

fn show_literals(rt: &HostRuntime) -> Result<(), anyhow::Error> {
    let code = code(rt.alloc())?;
    let found = literals(rt.alloc(), &code)?;
    for (sym, bytes) in found.items.as_slice() {
        println!(rt; "literal {} {:?}", sym.0, bytes.as_slice())?;
    }
    Ok(())
}

pub fn show_segments(rt: &HostRuntime) -> Result<(), anyhow::Error> {
    println!(rt; "= segments")?;
    println!(rt; "{:?}", segments())?;
    show_changes(rt)?;
    let mut draft = Draft::new(rt.alloc(), RegSet::empty());
    let labels = (draft.fresh(), draft.fresh(), draft.labels());
    println!(rt; "labels {labels:?}")?;
    let opcodes = (
        has_opcode(Op::Ldx, Mode::ZeroPageY),
        has_opcode(Op::Ldx, Mode::ZeroPageX),
    );
    println!(rt; "opcodes of ldx by Y and by X {opcodes:?}")?;
    println!(rt; "= literals")?;
    show_literals(rt)
}
