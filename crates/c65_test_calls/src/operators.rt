// The lines of operators at each kind of type.
use c65_base::{BinaryOp, Refusal};
use c65_code::{Draft, Line, RegSet};
use c65_genwide::gen_wide;
use c65_ints::IntType;
use std::alloc::Global;

const ROWS: [(BinaryOp, IntType); 8] = [
    (BinaryOp::Lt, IntType::Int),
    (BinaryOp::Lt, IntType::UInt),
    (BinaryOp::Mul, IntType::Long),
    (BinaryOp::Shr, IntType::Short),
    (BinaryOp::Rem, IntType::ULong),
    (BinaryOp::Sub, IntType::UChar),
    (BinaryOp::BitOr, IntType::SChar),
    (BinaryOp::Eq, IntType::SChar),
];

/// The first two lines.
fn first_lines(
    alloc: Global,
    op: BinaryOp,
    ty: IntType,
) -> Result<(Option<Line>, Option<Line>), Refusal> {
    let mut draft = Draft::new(alloc, RegSet::empty());
    gen_wide(op, ty, &mut draft)?;
    let lines = draft.lines();
    Ok((lines.first().copied(), lines.get(1).copied()))
}

pub fn show_operators(rt: &HostRuntime) -> Result<(), anyhow::Error> {
    println!(rt; "= operators")?;
    for (op, ty) in ROWS {
        let (first, second) = first_lines(rt.alloc(), op, ty)?;
        println!(rt; "{op:?} {ty:?}: {first:?} {second:?}")?;
    }
    Ok(())
}
