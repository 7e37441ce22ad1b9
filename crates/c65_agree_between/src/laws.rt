// Laws of states between statements, each the contract of a function that does nothing.
ghost use Rattle.c65_agree_between.specs.Laws.{BetweenIsReady, BetweenStays, KeepingGoesOn};

/// An expression may begin between two statements.
pub fn between_is_ready()
    ensures { BetweenIsReady }
{}

/// Behind an expression that began between two statements the next statement may begin.
pub fn between_stays()
    ensures { BetweenStays }
{}

/// A call keeps over an expression what it has kept for the call behind it.
pub fn keeping_goes_on()
    ensures { KeepingGoesOn }
{}
