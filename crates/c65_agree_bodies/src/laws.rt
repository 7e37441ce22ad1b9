// Laws of the bodies of a program's functions, each the contract of a function that does nothing.
ghost use Rattle.c65_agree_bodies.specs.Laws.{BodiesDoForAll};

/// The bodies of all functions do their work, for any number of steps.
pub fn bodies_do_for_all()
    ensures { BodiesDoForAll }
{}
