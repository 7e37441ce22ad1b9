// Laws of lists of lines, each the contract of a function that does nothing.
ghost use Rattle.c65_agree_lines.specs.Laws.{AllStand, FunctionsAreListed, FunctionsGiveTheirResults, LastTurnsStand, PartsStand, SegmentsArePlaced, StatementsAreListed, TurnsAreCounted, TurnsStand};

/// A draft gains the lines of a statement.
pub fn statements_are_listed()
    ensures { StatementsAreListed }
{}

/// The lines of a function by its parts.
pub fn functions_are_listed()
    ensures { FunctionsAreListed }
{}

/// What a function gives stays as it is through its lines.
pub fn functions_give_their_results()
    ensures { FunctionsGiveTheirResults }
{}

/// The parts of lines stand one behind another.
pub fn parts_stand()
    ensures { PartsStand }
{}

/// All lines of a function stand there.
pub fn all_stand()
    ensures { AllStand }
{}

/// In a segment each label has one place.
pub fn segments_are_placed()
    ensures { SegmentsArePlaced }
{}

/// The loops and gotos of a statement have their lines.
pub fn turns_stand()
    ensures { TurnsStand }
{}

/// So have those of a statement that stands last in its function.
pub fn last_turns_stand()
    ensures { LastTurnsStand }
{}

/// With its calls they are as many as the meaning counts.
pub fn turns_are_counted()
    ensures { TurnsAreCounted }
{}
