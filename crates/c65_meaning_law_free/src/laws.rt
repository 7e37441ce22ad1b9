// Laws of the free meaning, each the contract of a function that does nothing.
ghost use Rattle.c65_meaning_law_free.specs.Free.{FreeIsNeverDeep, FreeIsTheSame, FreeShowsTheSame, TooDeepIsDeep};

/// No call of a free run is too deep, whatever the active calls cost.
pub fn free_is_never_deep()
    ensures { FreeIsNeverDeep }
{}

/// As long as no state of it is too deep, a free run is in the same states as the run, with the same work, values, store and output.
pub fn free_is_the_same()
    ensures { FreeIsTheSame }
{}

/// Once a state of the free run is too deep, the meaning is that a call was.
pub fn too_deep_is_deep()
    ensures { TooDeepIsDeep }
{}

/// Where the meaning is not that a call was too deep, the free meaning shows the same.
pub fn free_shows_the_same()
    ensures { FreeShowsTheSame }
{}
