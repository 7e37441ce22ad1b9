// The routine of each operator at each integer type, and what brings its result into the type.
ghost use Rattle.std.specs.Prelude.{◌≡◌, OnOk, OnErr, IfErr};
ghost use Rattle.c65_base.specs.declared.refusal.Refusal.TheVariants.{OutOfMemory};
ghost use Rattle.c65_genwide.specs.Lines.{with_lines, Keeps};
ghost use Rattle.c65_genwide.specs.Wide.{signed_or, width_of, tos_of, is_comparison, narrow_code, wide_code};

use crate::writing::{put, run};
use c65_base::{BinaryOp, Refusal};
use c65_code::{Draft, Line, Operand, Routine, TosOp, Width};
use c65_ints::IntType;
use c65_mach::{Mode, Op};
use std::alloc::AllocError;

/// Whether values of a type stand in A and X, or in A, X and sreg. Those of a character type stand
/// in A and X too, with their sign or zeros in X.
pub fn width_of(ty: IntType) -> Width
    ensures { result ≡ width_of ty }
{
    match ty {
        IntType::Long | IntType::ULong => Width::Eax,
        _ => Width::Ax,
    }
}

fn signed_or(is_signed: bool, signed: TosOp, unsigned: TosOp) -> TosOp
    ensures { result ≡ signed_or is_signed signed unsigned }
{
    if is_signed { signed } else { unsigned }
}

pub fn tos_of(op: BinaryOp, is_signed: bool) -> TosOp
    ensures { result ≡ tos_of op is_signed }
{
    match op {
        BinaryOp::Mul => TosOp::Mul,
        BinaryOp::Div => signed_or(is_signed, TosOp::Div, TosOp::UDiv),
        BinaryOp::Rem => signed_or(is_signed, TosOp::Mod, TosOp::UMod),
        BinaryOp::Add => TosOp::Add,
        BinaryOp::Sub => TosOp::Sub,
        BinaryOp::Shl => TosOp::Shl,
        BinaryOp::Shr => signed_or(is_signed, TosOp::Asr, TosOp::Shr),
        BinaryOp::Lt => signed_or(is_signed, TosOp::Lt, TosOp::ULt),
        BinaryOp::Gt => signed_or(is_signed, TosOp::Gt, TosOp::UGt),
        BinaryOp::Le => signed_or(is_signed, TosOp::Le, TosOp::ULe),
        BinaryOp::Ge => signed_or(is_signed, TosOp::Ge, TosOp::UGe),
        BinaryOp::Eq => TosOp::Eq,
        BinaryOp::Ne => TosOp::Ne,
        BinaryOp::BitAnd => TosOp::And,
        BinaryOp::BitXor => TosOp::Xor,
        BinaryOp::BitOr => TosOp::Or,
    }
}

fn is_comparison(op: BinaryOp) -> bool
    ensures { result ≡ is_comparison op }
{
    match op {
        BinaryOp::Lt | BinaryOp::Gt | BinaryOp::Le | BinaryOp::Ge => true,
        BinaryOp::Eq | BinaryOp::Ne => true,
        _ => false,
    }
}

/// Puts the lines that bring AX into the range of a character type; for the other types there are
/// none (C90 6.2.1.2).
pub fn narrow(ty: IntType, draft: &mut Draft) -> Result<(), AllocError>
    ensures lines { OnOk result (draft.new ≡ with_lines draft.old (narrow_code ty)) }
    ensures kept { OnErr result (Keeps draft.old draft.new) }
{
    match ty {
        IntType::UChar => put(
            draft,
            &[Line::Do(Op::Ldx, Mode::Immediate, Operand::Byte(0))],
        ),
        IntType::SChar => run(draft, Routine::SignA),
        _ => put(draft, &[]),
    }
}

/// Puts the lines of an operator in a type: the left operand is on the software stack and goes from
/// there, the right one is in the primary register, which the result takes. Both are of the type's
/// width, a count of bits to shift by too. A comparison leaves 1 or 0 in AX (C90 6.3.5 to 6.3.12).
pub fn put_wide(op: BinaryOp, ty: IntType, draft: &mut Draft) -> Result<(), AllocError>
    ensures lines { OnOk result (draft.new ≡ with_lines draft.old (wide_code op ty)) }
    ensures kept { OnErr result (Keeps draft.old draft.new) }
{
    run(
        draft,
        Routine::Tos(tos_of(op, ty.is_signed()), width_of(ty)),
    )?;
    if is_comparison(op) {
        return Ok(());
    }
    narrow(ty, draft)
}

/// The same, for callers that tell refusals.
pub fn gen_wide(op: BinaryOp, ty: IntType, draft: &mut Draft) -> Result<(), Refusal>
    ensures lines { OnOk result (draft.new ≡ with_lines draft.old (wide_code op ty)) }
    ensures refused { IfErr result (λ e. e ≡ OutOfMemory) }
    ensures kept { OnErr result (Keeps draft.old draft.new) }
{
    put_wide(op, ty, draft)?;
    Ok(())
}
