// Routines by what their lines do.
ghost use Rattle.std.specs.Prelude.{◌≡◌, IfOk, IfErr, IsTrue};
ghost use Rattle.c65_base.specs.declared.refusal.Refusal.TheVariants.{OutOfMemory};
ghost use Rattle.c65_code.specs.RawMachine.{RawSetting, MeetsRow};
ghost use Rattle.c65_rtl_law_runtime.specs.Runtime.{has_lines, lines_for, CalledStand};

use c65_base::Refusal;
use c65_code::{Routine, Seg};
use c65_rtl::routine;
use c65_rtlwide::{is_wide, wide_routine};
use c65_va::{is_printf, printf_routine};
use std::alloc::Global;

fn written(alloc: Global, which: Routine) -> Result<Seg, Refusal>
    requires { IsTrue (has_lines which) }
    ensures lines { IfOk result (λ seg. seg.lines ≡ lines_for which) }
    ensures refused { IfErr result (λ refusal. refusal ≡ OutOfMemory) }
{
    if is_wide(which) {
        wide_routine(alloc, which)
    } else if is_printf(which) {
        printf_routine(alloc)
    } else {
        routine(alloc, which)
    }
}

/// The lines of a routine, and what it gives, as `routine`, `wide_routine` or `printf_routine` answers them.
///
/// Wherever they stand under its number, and those of the routines that it calls under theirs, each call that its row admits
/// does what the row says. It refuses for want of memory alone.
pub fn take_routine(alloc: Global, which: Routine) -> Result<Seg, Refusal>
    requires { IsTrue (has_lines which) }
    ensures lines { IfOk result (λ seg. seg.lines ≡ lines_for which) }
    ensures refused { IfErr result (λ refusal. refusal ≡ OutOfMemory) }
    ensures meets { IfOk result (λ seg. (s : RawSetting) → s.lines (s.routine which) ≡ seg.lines → CalledStand s which → MeetsRow s which) }
{
    written(alloc, which)
}
