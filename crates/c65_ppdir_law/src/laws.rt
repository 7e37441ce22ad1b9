// A law of preprocessing, the contract of a function that does nothing.
ghost use Rattle.c65_ppdir_law.specs.Once.{UnitsAreOne};

/// Told files, options, definitions, folders and a path have one unit or one refusal at most.
pub fn units_are_one()
    ensures { UnitsAreOne }
{}
