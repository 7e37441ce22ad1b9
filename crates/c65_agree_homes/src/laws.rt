// Laws of frames, blocks and turns, each the contract of a function that does nothing.
ghost use Rattle.c65_agree_homes.specs.Laws.{CallsCountTheirTurns, CallsHaveFewLabels, GotosCountTheirTurns, GroundIsGiven, HeadsAreCounted, LabelsMayLand, LastParametersArrive, ObjectsMayBegin, ParametersHaveHomes, ParametersStandInOrder, PartsAreGiven, TurnsAreFew};

/// The parameters of a function are distinct, and have their homes in its frame.
pub fn parameters_have_homes()
    ensures { ParametersHaveHomes }
{}

/// Parameters that the frame keeps on the software stack stand there in their order.
pub fn parameters_stand_in_order()
    ensures { ParametersStandInOrder }
{}

/// The last parameter arrives in registers, if any does.
pub fn last_parameters_arrive()
    ensures { LastParametersArrive }
{}

/// Objects of the function's blocks may begin where others of it are in scope.
pub fn objects_may_begin()
    ensures { ObjectsMayBegin }
{}

/// A `goto` may lead to each label, from any blocks.
pub fn labels_may_land()
    ensures { LabelsMayLand }
{}

/// Objects that have one place for the whole run lie below the software stack.
pub fn ground_is_given()
    ensures { GroundIsGiven }
{}

/// The labels of a function have numbers of 32 bits.
pub fn calls_have_few_labels()
    ensures { CallsHaveFewLabels }
{}

/// Turns are counted at the heads of loops.
pub fn heads_are_counted()
    ensures { HeadsAreCounted }
{}

/// Turns are counted at the lines of each `goto`.
pub fn gotos_count_their_turns()
    ensures { GotosCountTheirTurns }
{}

/// Turns are counted at each line that calls a function.
pub fn calls_count_their_turns()
    ensures { CallsCountTheirTurns }
{}

/// Turns are counted at no more lines than the meaning has places for them.
pub fn turns_are_few()
    ensures { TurnsAreFew }
{}

/// Where the expressions of a body do their work, all is given that its statements ask for.
pub fn parts_are_given()
    ensures { PartsAreGiven }
{}
