// What the routines give (docs/MACHINE.md, "Routines").
ghost use Rattle.std.specs.Prelude.{◌≡◌, ◌∷◌, []};
ghost use Rattle.c65_code.specs.Parts.{set_of};
ghost use Rattle.c65_code.specs.Effects.{ax, eax, primary};
ghost use Rattle.c65_rtl.specs.Routines.{tos_result, unary_result, library_result, result_of, given_by};

use c65_base::Library;
use c65_code::{Part, RegSet, Routine, TosOp, UnaryRoutine, Width};

fn word() -> RegSet
    ensures { result ≡ ax }
{
    RegSet::of(&[Part::A, Part::X])
}

fn long() -> RegSet
    ensures { result ≡ eax }
{
    word().union(RegSet::zero_bytes(2, 4))
}

fn primary_register(width: Width) -> RegSet
    ensures { result ≡ primary width }
{
    match width {
        Width::Ax => word(),
        Width::Eax => long(),
    }
}

/// The result of an operator: the orders give AX.
pub fn tos_result(op: TosOp, width: Width) -> RegSet
    ensures { result ≡ tos_result op width }
{
    match op {
        TosOp::Eq | TosOp::Ne | TosOp::Lt | TosOp::Le | TosOp::Gt | TosOp::Ge => word(),
        TosOp::ULt | TosOp::ULe | TosOp::UGt | TosOp::UGe => word(),
        _ => primary_register(width),
    }
}

fn unary_result(op: UnaryRoutine, width: Width) -> RegSet
    ensures { result ≡ unary_result op width }
{
    match op {
        UnaryRoutine::BNeg => word(),
        _ => primary_register(width),
    }
}

fn library_result(function: Library) -> RegSet
    ensures { result ≡ library_result function }
{
    match function {
        Library::Exit => RegSet::empty(),
        _ => word(),
    }
}

fn result_of(which: Routine) -> RegSet
    ensures { result ≡ result_of which }
{
    match which {
        Routine::PopA => RegSet::of(&[Part::A]),
        Routine::PushA0 => RegSet::of(&[Part::X]),
        Routine::Push0 | Routine::PopAx | Routine::LdAxYSp | Routine::LdAx0Sp => word(),
        Routine::LdAi | Routine::LdAxi | Routine::CopyTos | Routine::SignA => word(),
        Routine::PopEax | Routine::LdEaxYSp | Routine::LdEaxi => long(),
        Routine::PopPtrs => RegSet::zero_bytes(8, 12),
        Routine::Tos(op, width) => tos_result(op, width),
        Routine::Unary(op, width) => unary_result(op, width),
        Routine::LongAx | Routine::ULongAx => RegSet::zero_bytes(2, 4),
        Routine::RestRegs => RegSet::zero_bytes(20, 26),
        Routine::Library(function) => library_result(function),
        _ => RegSet::empty(),
    }
}

/// What a routine gives: its result, and what it does not change.
pub fn given(which: Routine) -> RegSet
    ensures { result ≡ given_by which }
{
    RegSet::all().minus(which.sets()).union(result_of(which))
}
