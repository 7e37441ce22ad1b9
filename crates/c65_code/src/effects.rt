// What the routines read and may change (MACHINE.md, "Routines").
ghost use Rattle.std.specs.Prelude.{◌≡◌, ◌∷◌, []};
ghost use Rattle.c65_code.specs.Effects.{sp_bytes, ax, eax, primary, small, checks, large, kept_at_calls, library_reads, library_sets, routine_reads, routine_sets};
ghost use Rattle.c65_code.specs.Parts.{IsPart, set_of};

use crate::parts::{Part, RegSet};
use crate::routine::{Routine, Width};
use c65_base::Library;

// The software stack's pointer.
fn sp() -> RegSet
    ensures { result ≡ sp_bytes }
{
    RegSet::zero_bytes(0, 2)
}

fn only(part: Part) -> RegSet
    requires { IsPart part }
    ensures { result ≡ set_of (part ∷ []) }
{
    RegSet::empty().with(part)
}

fn word() -> RegSet
    ensures { result ≡ ax }
{
    RegSet::of(&[Part::A, Part::X])
}

// AX, and sreg above it.
fn long() -> RegSet
    ensures { result ≡ eax }
{
    word().union(RegSet::zero_bytes(2, 4))
}

fn primary_register(width: Width) -> RegSet
    ensures { result ≡ primary width }
{
    match width {
        Width::Ax => word(),
        Width::Eax => long(),
    }
}

// Y and the flags, which every routine may change.
fn least() -> RegSet
    ensures { result ≡ small }
{
    RegSet::of(&[Part::Y, Part::N, Part::V, Part::Z, Part::C])
}

// What the check of the stacks may change where it comes back: the flags, and all of regsave to tmp4.
fn checking() -> RegSet
    ensures { result ≡ checks }
{
    RegSet::of(&[Part::N, Part::V, Part::Z, Part::C]).union(RegSet::zero_bytes(4, 20))
}

// What a routine of the second group may change: the primary register, regsave, and all of ptr1 to tmp4 too.
fn most() -> RegSet
    ensures { result ≡ large }
{
    least().union(long()).union(RegSet::zero_bytes(4, 20))
}

/// What a function finds as its caller left it, and keeps: sp and regbank.
pub fn kept_at_calls() -> RegSet
    ensures { result ≡ kept_at_calls }
{
    sp().union(RegSet::zero_bytes(20, 26))
}

fn library_reads_of(function: Library) -> RegSet
    ensures { result ≡ library_reads function }
{
    match function {
        Library::Getchar => RegSet::empty(),
        Library::Memcpy | Library::Memset | Library::Strcmp | Library::Strcpy => word().union(sp()),
        Library::Printf => only(Part::Y).union(sp()),
        Library::Putchar | Library::Puts | Library::Exit | Library::Strlen => word(),
    }
}

fn library_sets_of(function: Library) -> RegSet
    ensures { result ≡ library_sets function }
{
    match function {
        Library::Memcpy | Library::Memset | Library::Strcmp | Library::Strcpy | Library::Printf =>
            most().union(sp()),
        Library::Putchar | Library::Getchar | Library::Puts | Library::Exit | Library::Strlen =>
            most(),
    }
}

impl Routine {
    /// What the routine reads, sp included where its row takes or leaves anything there.
    pub fn reads(self) -> RegSet
        ensures { result ≡ routine_reads self }
    {
        match self {
            Routine::PushA | Routine::PushA0 | Routine::StATos => only(Part::A).union(sp()),
            Routine::PushAx | Routine::StAx0Sp | Routine::StAxTos => word().union(sp()),
            Routine::PushEax | Routine::StEaxTos | Routine::RestRegs => long().union(sp()),
            Routine::Push0 | Routine::PopA | Routine::PopAx | Routine::PopEax => sp(),
            Routine::PopPtrs | Routine::IncSp(_) | Routine::DecSp(_) | Routine::LdAx0Sp => sp(),
            Routine::AddYSp | Routine::SubYSp => only(Part::Y).union(sp()),
            Routine::LdAxYSp | Routine::LdEaxYSp => only(Part::Y).union(sp()),
            Routine::StAxYSp => word().union(only(Part::Y)).union(sp()),
            Routine::StEaxYSp => long().union(only(Part::Y)).union(sp()),
            Routine::LdAi | Routine::LdAxi | Routine::LdEaxi => word(),
            Routine::LongAx | Routine::ULongAx => word(),
            Routine::CopyTos => word().union(RegSet::zero_bytes(12, 14)).union(sp()),
            Routine::Tos(_, width) => primary_register(width).union(sp()),
            Routine::Unary(_, width) => primary_register(width),
            Routine::SignA | Routine::HookExit => only(Part::A),
            Routine::SaveRegs => long().union(sp()).union(RegSet::zero_bytes(20, 26)),
            Routine::CallPtr4 => RegSet::all().minus(RegSet::of(&[
                Part::N,
                Part::V,
                Part::Z,
                Part::C,
            ])),
            Routine::StkChk => RegSet::zero_bytes(18, 20).union(sp()),
            Routine::Start | Routine::StartArgs | Routine::HookClose => RegSet::empty(),
            Routine::Library(function) => library_reads_of(function),
            Routine::HookOpen => only(Part::Y).union(sp()),
            Routine::HookRead | Routine::HookWrite | Routine::HookArgs => word().union(sp()),
        }
    }

    /// What the routine may change.
    pub fn sets(self) -> RegSet
        ensures { result ≡ routine_sets self }
    {
        match self {
            Routine::PushA | Routine::PushAx | Routine::PushEax => least().union(sp()),
            Routine::IncSp(_) | Routine::DecSp(_) => least().union(sp()),
            Routine::AddYSp | Routine::SubYSp => least().union(sp()),
            Routine::PushA0 => least().union(sp()).union(only(Part::X)),
            Routine::PopA => least().union(sp()).union(only(Part::A)),
            Routine::Push0 | Routine::PopAx => least().union(sp()).union(word()),
            Routine::PopEax => least().union(sp()).union(long()),
            Routine::PopPtrs => {
                least()
                    .union(sp())
                    .union(only(Part::A))
                    .union(RegSet::zero_bytes(8, 12))
            }
            Routine::LdAxYSp | Routine::LdAx0Sp => least().union(word()),
            Routine::LdEaxYSp => least().union(long()),
            Routine::StAxYSp | Routine::StAx0Sp | Routine::StEaxYSp => least(),
            Routine::LdAi | Routine::LdAxi | Routine::LdEaxi => most(),
            Routine::Unary(_, _) | Routine::SignA => most(),
            Routine::StATos => most().union(sp()).minus(only(Part::A)),
            Routine::StAxTos => most().union(sp()).minus(word()),
            Routine::StEaxTos | Routine::SaveRegs => most().union(sp()).minus(long()),
            Routine::CopyTos | Routine::Tos(_, _) => most().union(sp()),
            Routine::Start | Routine::StartArgs => most().union(sp()),
            Routine::LongAx | Routine::ULongAx => most().minus(word()),
            Routine::RestRegs => {
                most()
                    .union(sp())
                    .minus(long())
                    .union(RegSet::zero_bytes(20, 26))
            }
            Routine::CallPtr4 => RegSet::all().minus(kept_at_calls()),
            Routine::StkChk => checking(),
            Routine::Library(function) => library_sets_of(function),
            Routine::HookOpen | Routine::HookRead => word().union(sp()),
            Routine::HookWrite | Routine::HookArgs => word().union(sp()),
            Routine::HookClose => word(),
            Routine::HookExit => RegSet::empty(),
        }
    }
}
