// Laws of the meaning of well typed trees, each the contract of a function that does nothing.
ghost use Rattle.c65_meaning.specs.Sem.{state_at};
ghost use Rattle.c65_meaning_law_free.specs.Free.{free_state_at};
ghost use Rattle.c65_meaning_law.specs.Laws.{ExpressionsFit, IsFit};
ghost use Rattle.c65_meaning_law.specs.Library.{LibraryFits};
ghost use Rattle.c65_meaning_law.specs.Programs.{InitialStoreFits};
ghost use Rattle.c65_meaning_law.specs.Runs.{IsFitAndFree, ProgramsFit};
ghost use Rattle.c65_meaning_law.specs.Statements.{StatementsFit};

/// Where each object that a well typed expression names has a block, and memory names only blocks that there are, the run of the
/// expression, up to its end or its next call, never comes to trees or values that do not fit.
pub fn expressions_fit()
    ensures { ExpressionsFit }
{}

/// Where the names of a well typed statement are in a scope whose objects have blocks, and memory names only blocks that there are, the run
/// of the statement, up to its end or its next call or jump, never comes to trees or values that do not fit.
pub fn statements_fit()
    ensures { StatementsFit }
{}

/// On arguments of the types that a function of the library asks for, where memory names only blocks that there are, a call of it goes well
/// and leaves memory so, or is undefined by a numbered action.
pub fn library_fits()
    ensures { LibraryFits }
{}

/// Before `main` each function, literal and object of the whole run has a block; and memory names only blocks that there are, where no
/// initial value points to an automatic object.
pub fn initial_store_fits()
    ensures { InitialStoreFits }
{}

/// The run of a well typed program whose names are in scope, and whose `main` and library functions have their types, never comes to trees
/// or values that do not fit; nor does its free run, in which no call is too deep either.
pub fn programs_fit()
    ensures checked { ProgramsFit state_at IsFit }
    ensures free { ProgramsFit free_state_at IsFitAndFree }
{}
