// The law, as the contract of a function that does nothing.
ghost use Rattle.c65_sim_law_cpu.specs.Laws.{ProcessorsAgree};

/// Where an image for the 6502 met no byte without a row, and no jump that `Run::differed` tells of, its run is that of the
/// same image for the 65C02.
pub fn processors_agree()
    ensures { ProcessorsAgree }
{}
