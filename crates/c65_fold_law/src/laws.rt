// Laws of folding, each the contract of a function that does nothing.
ghost use Rattle.c65_meaning.specs.Sem.{sem, sem_free};
ghost use Rattle.c65_fold_law.specs.Laws.{ConstantsSettle, ExpressionsKeep, FoldingKeeps, FoldingAddsNothing};

/// An expression that folding replaces by a constant gives that constant's value, in at least as many steps, and changes nothing
/// else: no store, no output, no turn.
pub fn constants_settle()
    ensures { ConstantsSettle }
{}

/// Where the run of a well typed expression comes to its end, that of its folded form does, with the same value, store, output and
/// turns, in no more steps.
pub fn expressions_keep()
    ensures { ExpressionsKeep }
{}

/// A well typed program and its folded form show the same, output, turns and status, and the folded form in no more steps; so it is too
/// where no call is too deep.
pub fn folding_keeps()
    ensures checked { FoldingKeeps sem }
    ensures free { FoldingKeeps sem_free }
{}

/// What the folded form of a well typed program shows, the program itself shows, no earlier, where it is defined; so it is too where no
/// call is too deep.
pub fn folding_adds_nothing()
    ensures checked { FoldingAddsNothing sem }
    ensures free { FoldingAddsNothing sem_free }
{}
