// Laws of what is live, each the contract of a function that does nothing.
ghost use Rattle.c65_live.specs.Samples.{LoopKeepsByte, ReturnForgetsByte, ReturnForgetsCarry, ReturnKeepsSp, DeadIsNotLive};

/// What is live in a loop, and before a return.
pub fn live_samples()
    ensures turn { LoopKeepsByte }
    ensures byte { ReturnForgetsByte }
    ensures carry { ReturnForgetsCarry }
    ensures sp { ReturnKeepsSp }
{}

/// None of the parts that are dead after a line is live there.
pub fn dead_is_not_live()
    ensures { DeadIsNotLive }
{}
