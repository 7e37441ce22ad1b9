// Laws, each the contract of a function that does nothing.
ghost use Rattle.c65_link_law_runtime.specs.Laws.{LinkedRuntimesAreMet};

/// The runtime of a linked code by itself does what its rows say: what the laws of the image's rows take as a premise.
pub fn linked_runtimes_are_met()
    ensures { LinkedRuntimesAreMet }
{}
