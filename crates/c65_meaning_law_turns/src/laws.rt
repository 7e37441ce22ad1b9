// A law of runs, the contract of a function that does nothing.
ghost use Rattle.c65_meaning_law_turns.specs.Turns.{TurnsGoOn};

/// A program that is defined for ever ends, or makes as many turns as one likes.
pub fn turns_go_on()
    ensures { TurnsGoOn }
{}
