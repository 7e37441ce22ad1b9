// Laws, each the contract of a function that does nothing.
ghost use Rattle.c65_rtl_law_inner.specs.Inner.{InnerPushesAreMet, InnerRowsAreMet};

/// Wherever the lines of `incsp1`, `incsp4`, `popa`, `popax`, `popeax`, `ldaxysp` or `negeax` stand under its number, each call of
/// it does what its row says within whatever bounds leave it the bytes of both stacks that it needs, in as many instructions as
/// it has lines.
pub fn inner_rows_are_met()
    ensures { InnerRowsAreMet }
{}

/// So it is with `pusha`, `pushax` and `push0`.
pub fn inner_pushes_are_met()
    ensures { InnerPushesAreMet }
{}
