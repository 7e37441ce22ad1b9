// How a call of the tool ended.
ghost use Rattle.std.specs.Prelude.{◌≡◌};
ghost use Rattle.c65_driver.specs.Outcome.{code_of};

use c65_base::Refusal;

/// How a call of the tool ended.
#[derive(Debug, Drop)]
pub enum Outcome {
    /// The command was done, with this status.
    Done(u8),
    /// The command was refused, and the line was written.
    Refused(Refusal),
}

impl Outcome {
    /// The status with which the program ends.
    pub fn code(&self) -> u8
        ensures { result ≡ code_of self.now }
    {
        match self {
            Outcome::Done(status) => *status,
            Outcome::Refused(refusal) => refusal.status(),
        }
    }
}
