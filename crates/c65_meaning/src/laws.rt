// Laws of runs and of the store, each the contract of a function that does nothing.
ghost use Rattle.c65_meaning.specs.Fits.{ConversionsFit, OperatorsFit, UnaryOperatorsFit, StepsFit, ReadsFit};
ghost use Rattle.c65_meaning.specs.Laws.{RunsGoOn, LastStays, OutputGrows, NamesStay, StoredIsRead, StoresStay};

/// The state after n + m steps is m steps on from the one after n steps.
pub fn runs_go_on()
    ensures { RunsGoOn }
{}

/// An end, an undefined action and too deep a call stay.
pub fn last_stays()
    ensures { LastStays }
{}

/// Output only grows, and turns only rise, by at most one a step.
pub fn output_grows()
    ensures { OutputGrows }
{}

/// A number that has named a block never names another one, and a block that has ended stays so.
pub fn names_stay()
    ensures { NamesStay }
{}

/// What is stored is read back: numbers as the value of their type, null and places as they are.
pub fn stored_is_read()
    ensures { StoredIsRead }
{}

/// A store changes the cells of its object and nothing else.
pub fn stores_stay()
    ensures { StoresStay }
{}

/// What is read from bytes is a value of its shape: a number of its type, a place, null, or what may not be used.
pub fn reads_fit()
    ensures { ReadsFit }
{}

/// A conversion gives a value of the type that it converts to.
pub fn conversions_fit()
    ensures { ConversionsFit }
{}

/// An operator on two values gives a value of its result's type.
pub fn operators_fit()
    ensures { OperatorsFit }
{}

/// An operator on one value gives a value of its result's type.
pub fn unary_operators_fit()
    ensures { UnaryOperatorsFit }
{}

/// One more or one less is a value of the same type.
pub fn steps_fit()
    ensures { StepsFit }
{}
