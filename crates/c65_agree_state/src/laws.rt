// Laws of the relation between meaning and machine, each the contract of a function that does nothing.
ghost use Rattle.c65_agree_state.specs.Laws.{AddressesDo, ArrivalsCount, CommasDo, ConstantTestsDo, ConstantsDo, FollowsWeaken, HeadsCount, KeptGoesOn, ReadyIsCalm, ReadyStays, ScratchChanges, ScratchIsKept, StepsEarn, WaysAreFollowed};

/// What is followed within a weight is followed within a greater one.
pub fn follows_weaken()
    ensures { FollowsWeaken }
{}

/// A way of the machine may go before what is followed.
pub fn ways_are_followed()
    ensures { WaysAreFollowed }
{}

/// A step of the meaning earns a weight of 4,000.
pub fn steps_earn()
    ensures { StepsEarn }
{}

/// Where the machine comes to a line, as many turns may be taken as stand there.
pub fn arrivals_count()
    ensures { ArrivalsCount }
{}

/// With them those of the loops whose head it is may be taken.
pub fn heads_count()
    ensures { HeadsCount }
{}

/// Where an expression may begin the machine is calm, and each routine has its room.
pub fn ready_is_calm()
    ensures { ReadyIsCalm }
{}

/// A scene goes on belonging to a state of which only registers, scratch bytes and bytes below the base change.
pub fn scratch_changes()
    ensures { ScratchChanges }
{}

/// What one part of an expression keeps and what the next one keeps is kept over both.
pub fn kept_goes_on()
    ensures { KeptGoesOn }
{}

/// Where an expression has ended the next one may begin.
pub fn ready_stays()
    ensures { ReadyStays }
{}

/// The lines of a place in memory do the work of its address.
pub fn addresses_do()
    ensures { AddressesDo }
{}

/// The lines of the two sides of `,` do the work of both.
pub fn commas_do()
    ensures { CommasDo }
{}

/// Where no more than scratch bytes below sp changes, all is kept that an expression keeps.
pub fn scratch_is_kept()
    ensures { ScratchIsKept }
{}

/// The lines of a constant of at most 16 bits do its work.
pub fn constants_do()
    ensures { ConstantsDo }
{}

/// The lines of a test of a constant lead where its truth does.
pub fn constant_tests_do()
    ensures { ConstantTestsDo }
{}
