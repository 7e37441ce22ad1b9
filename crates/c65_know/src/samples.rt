// Notes worked by hand, each the contract of a function that does nothing.
ghost use Rattle.std.specs.Prelude.{◌≡◌};
ghost use Rattle.c65_know.specs.Known.{known_of};
ghost use Rattle.c65_know.specs.Samples.{two_loads, two_loads_notes, shown_taken, shown_taken_notes, turns, turns_notes, stores, stores_notes, operations, operations_notes};

/// The notes of loads, of branches forward and back, of stores and a routine, and of operations on what is not known.
pub fn worked_notes()
    ensures loads { known_of two_loads ≡ two_loads_notes }
    ensures taken { known_of shown_taken ≡ shown_taken_notes }
    ensures turns { known_of turns ≡ turns_notes }
    ensures stores { known_of stores ≡ stores_notes }
    ensures operations { known_of operations ≡ operations_notes }
{}
