// The routine of each name.
ghost use Rattle.std.specs.Prelude.{◌≡◌, OnOk, IfOk, IfErr, IsTrue};
ghost use Rattle.c65_base.specs.declared.refusal.Refusal.TheVariants.{OutOfMemory};
ghost use Rattle.c65_code.specs.RawMachine.{RawSetting, MeetsRow};
ghost use Rattle.c65_rtl.specs.Assembly.{with_pieces};
ghost use Rattle.c65_rtl.specs.Rows.{is_shown};
ghost use Rattle.c65_rtl.specs.Short.{IsShort, is_straight, cost_of};
ghost use Rattle.c65_rtl.specs.Routines.{is_narrow, tos_pieces, stack_pieces, pieces_of, lines_of, given_by};

use crate::check::check;
use crate::gives::given;
use crate::library::{library, start};
use crate::memory::{bank, load_from, store_to};
use crate::operators::{arithmetic, division};
use crate::orders::order;
use crate::shifts::shift;
use crate::stack::{load, lower, pop, push, raise, store};
use crate::unary::{long, widening, word};
use c65_base::{Library, Refusal};
use c65_code::{Draft, Routine, Seg, TosOp, Width};
use std::alloc::{AllocError, Global};

/// Whether the routine's lines stand here: it is no hook, and not the multiplication or a division of 32 bits, or `printf`.
pub fn is_narrow(which: Routine) -> bool
    ensures { result ≡ is_narrow which }
{
    match which {
        Routine::Tos(TosOp::Mul | TosOp::Div | TosOp::Mod, Width::Eax) => false,
        Routine::Tos(TosOp::UDiv | TosOp::UMod, Width::Eax) => false,
        Routine::Library(Library::Printf) => false,
        Routine::HookOpen | Routine::HookClose | Routine::HookRead => false,
        Routine::HookWrite | Routine::HookArgs | Routine::HookExit => false,
        _ => true,
    }
}

fn tos(draft: &mut Draft, op: TosOp, width: Width) -> Result<(), AllocError>
    ensures { OnOk result (draft.new ≡ with_pieces draft.old (tos_pieces op width)) }
{
    match op {
        TosOp::Add | TosOp::Sub | TosOp::Mul => arithmetic(draft, op, width),
        TosOp::And | TosOp::Or | TosOp::Xor => arithmetic(draft, op, width),
        TosOp::Div | TosOp::Mod | TosOp::UDiv | TosOp::UMod => division(draft, op),
        TosOp::Shl | TosOp::Shr | TosOp::Asr => shift(draft, op, width),
        TosOp::Eq | TosOp::Ne | TosOp::Lt | TosOp::Le | TosOp::Gt | TosOp::Ge => {
            order(draft, op, width)
        }
        TosOp::ULt | TosOp::ULe | TosOp::UGt | TosOp::UGe => order(draft, op, width),
    }
}

fn on_stack(draft: &mut Draft, which: Routine) -> Result<(), AllocError>
    ensures { OnOk result (draft.new ≡ with_pieces draft.old (stack_pieces which)) }
{
    match which {
        Routine::PushA | Routine::PushAx | Routine::PushA0 => push(draft, which),
        Routine::Push0 | Routine::PushEax => push(draft, which),
        Routine::PopA | Routine::PopAx | Routine::PopEax | Routine::PopPtrs => pop(draft, which),
        Routine::AddYSp | Routine::SubYSp => pop(draft, which),
        Routine::IncSp(count) => raise(draft, count),
        Routine::DecSp(count) => lower(draft, count),
        Routine::LdAxYSp | Routine::LdAx0Sp | Routine::LdEaxYSp => load(draft, which),
        Routine::StAxYSp | Routine::StAx0Sp | Routine::StEaxYSp => store(draft, which),
        _ => Ok(()),
    }
}

fn write(draft: &mut Draft, which: Routine) -> Result<(), AllocError>
    ensures { OnOk result (draft.new ≡ with_pieces draft.old (pieces_of which)) }
{
    match which {
        Routine::LdAi | Routine::LdAxi | Routine::LdEaxi => load_from(draft, which),
        Routine::StATos | Routine::StAxTos | Routine::StEaxTos => store_to(draft, which),
        Routine::CopyTos | Routine::SaveRegs | Routine::RestRegs => bank(draft, which),
        Routine::CallPtr4 => bank(draft, which),
        Routine::Tos(op, width) => tos(draft, op, width),
        Routine::Unary(op, Width::Ax) => word(draft, op),
        Routine::Unary(op, Width::Eax) => long(draft, op),
        Routine::SignA | Routine::LongAx | Routine::ULongAx => widening(draft, which),
        Routine::Start | Routine::StartArgs => start(draft, which),
        Routine::StkChk => check(draft),
        Routine::Library(function) => library(draft, function),
        _ => on_stack(draft, which),
    }
}

/// The lines of a routine, and what it gives: its result and what it keeps.
///
/// In `start` and `startargs` symbol 0 stands for main. The routines that are called stand in lines of their own.
/// A routine without loops and calls does each line at most once, and weighs less than its row's cost. Wherever the lines of
/// such a routine, or of a shift by a count, stand under its number, each call that its row admits does what the row says.
/// It refuses for want of memory alone.
pub fn routine(alloc: Global, which: Routine) -> Result<Seg, Refusal>
    requires { IsTrue (is_narrow which) }
    ensures lines { IfOk result (λ seg. seg.lines ≡ lines_of which) }
    ensures out { IfOk result (λ seg. seg.out ≡ given_by which) }
    ensures refused { IfErr result (λ refusal. refusal ≡ OutOfMemory) }
    ensures short { IsTrue (is_straight which) → IfOk result (λ seg. IsShort (cost_of which) seg.lines) }
    ensures meets { IsTrue (is_shown which) → IfOk result (λ seg. (s : RawSetting) → s.lines (s.routine which) ≡ seg.lines → MeetsRow s which) }
{
    let mut draft = Draft::new(alloc, given(which));
    write(&mut draft, which)?;
    Ok(draft.close())
}
