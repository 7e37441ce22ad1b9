// Laws of calls that are left, each the contract of a function that does nothing.
ghost use Rattle.c65_agree_leave.specs.Laws.{CallsAreLeft, ReturnsAreFollowed};

/// The scene behind a call belongs to the state.
pub fn calls_are_left()
    ensures { CallsAreLeft }
{}

/// The end of a function does the step that leaves a call.
pub fn returns_are_followed()
    ensures { ReturnsAreFollowed }
{}
