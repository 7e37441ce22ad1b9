// Laws of the beginning, each the contract of a function that does nothing.
ghost use Rattle.c65_agree_begin.specs.Laws.{FixedObjectsAreLow, MainMayBeEntered};

/// Objects of blocks that have one place for the whole run lie below the software stack.
pub fn fixed_objects_are_low()
    ensures { FixedObjectsAreLow }
{}

/// Where main begins it may be entered.
pub fn main_may_be_entered()
    ensures { MainMayBeEntered }
{}
