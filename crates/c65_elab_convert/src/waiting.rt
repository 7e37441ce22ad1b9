// Operands that wait while another step is taken. Where the step fails they are dropped here, at an unknown type: the
// check lays out a drop of a tree variant by variant, at each exit.
ghost use Rattle.std.specs.Prelude.{◌≡◌, Ok, Err, IfOk, IfErr};

/// What a step answers, beside what waits for it.
pub fn beside<T: Drop, E: Drop, W: Drop>(answer: Result<T, E>, waiting: W) -> Result<(T, W), E>
    ensures answer { IfOk result (λ r. answer ≡ Ok r.0) }
    ensures waiting { IfOk result (λ r. r.1 ≡ waiting) }
    ensures refused { IfErr result (λ e. answer ≡ Err e) }
{
    match answer {
        Ok(value) => Ok((value, waiting)),
        Err(error) => Err(error),
    }
}
