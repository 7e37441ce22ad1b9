// Jumps, values, effects and tests.
ghost use Rattle.std.specs.Prelude.{◌≡◌, ◌∷◌, [], OnOk};
ghost use Rattle.c65_mach.specs.declared.rows.Op.TheVariants.{Jmp};
ghost use Rattle.c65_ctype.specs.Views.{ty_of};
ghost use Rattle.c65_csem.specs.Views.{typed_of};
ghost use Rattle.c65_genexpr.specs.Types.{kind_of};
ghost use Rattle.c65_genwide.specs.Lines.{with_lines};
ghost use Rattle.c65_genentry.specs.Words.{jump};
ghost use Rattle.c65_genstmt.specs.Jumps.{following, with_value, with_effect, with_test};

use c65_code::{Draft, Line, Operand};
use c65_csem::TExpr;
use c65_ctype::CType;
use c65_geneffect as effects;
use c65_genexpr::{put_expr, put_test};
use c65_genframe::Frame;
use c65_genwide::put;
use c65_ints::IntType;
use c65_mach::{Mode, Op};
use std::alloc::AllocError;

/// Where jumps out of a statement lead, as labels.
#[derive(Clone, Copy)]
pub struct Ways {
    /// Behind the innermost loop or switch.
    pub behind: u32,
    /// To where the innermost loop goes on.
    pub onward: u32,
    /// To the default label of the innermost switch.
    pub other: u32,
}

/// The label behind a label.
pub fn following(label: u32) -> u32
    ensures { result ≡ following label }
{
    label.wrapping_add(1)
}

/// The integer type whose values stand for those of a scalar type.
pub fn kind_of(ty: &CType) -> IntType
    ensures { result ≡ kind_of (ty_of ty.now) }
{
    match ty {
        CType::Int(kind) => *kind,
        _ => IntType::UInt,
    }
}

/// A jump.
pub fn put_jump(label: u32, draft: &mut Draft) -> Result<(), AllocError>
    ensures { OnOk result (draft.new ≡ with_lines draft.old (jump Jmp label ∷ [])) }
{
    put(
        draft,
        &[Line::Do(Op::Jmp, Mode::Absolute, Operand::To(label))],
    )
}

/// The lines of an expression where no value waits.
pub fn put_value(expr: &TExpr, frame: &Frame<'_>, draft: &mut Draft) -> Result<(), AllocError>
    ensures { OnOk result (draft.new ≡ with_value frame.now (typed_of expr.now) draft.old) }
{
    put_expr(expr, frame, 0, draft)
}

/// Those of one whose value is not used.
pub fn put_effect(expr: &TExpr, frame: &Frame<'_>, draft: &mut Draft) -> Result<(), AllocError>
    ensures { OnOk result (draft.new ≡ with_effect frame.now (typed_of expr.now) draft.old) }
{
    effects::put_effect(expr, frame, 0, draft)
}

/// A test where no value waits: it leads to a label where the truth of the expression is this.
pub fn put_truth(
    expr: &TExpr,
    frame: &Frame<'_>,
    label: u32,
    sense: bool,
    draft: &mut Draft,
) -> Result<(), AllocError>
    ensures { OnOk result (draft.new ≡ with_test frame.now label sense (typed_of expr.now) draft.old) }
{
    put_test(expr, frame, 0, label, sense, draft)
}
