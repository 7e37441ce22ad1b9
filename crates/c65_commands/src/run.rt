// The run of an image, as the command asks for it.
ghost use Rattle.std.specs.Prelude.{◌≡◌, ◌++◌, IfOk, IfErr, take};
ghost use Rattle.c65_commands.specs.Setups.{setup_of, budget_of, ImageRuns};
ghost use Rattle.c65_sim.specs.Runs.{ReadCause, WriteCause};

use c65_base::{Refusal, Text};
use c65_driver_words::Command;
use c65_io::{Sink, Source};
use c65_mach::Image;
use c65_sim::{Budget, Run};
use std::alloc::Global;
use std::marker::Model;

/// How a command runs its image: the rows or cycles, the guard of the hardware stack, and the program's arguments.
#[derive(Drop)]
pub struct Plan {
    budget: Budget,
    guard: bool,
    args: Vec<Text>,
}

impl Model for Plan {
    ghost use Rattle.c65_commands.specs.Setups.{Setup};

    ghost Value = { Setup };

    ghost view = { λ p. record { budget = p.budget; guard = p.guard; args = p.args.items } };
}

/// So many cycles, or as many rows as a count can name.
fn budget(cycles: Option<u32>) -> Budget
    ensures { result ≡ budget_of cycles }
{
    match cycles {
        Some(cycles) => Budget::Cycles(u64::from(cycles)),
        None => Budget::Instructions(u64::MAX),
    }
}

/// The name of the first file, and then the arguments.
pub fn arguments(alloc: Global, files: &[Text], args: &[Text]) -> Result<Vec<Text>, Refusal>
    ensures ok { IfOk result (λ texts. texts.items ≡ take 1 files.now ++ args.now) }
    ensures refused { IfErr result (λ refusal. refusal ≡ Refusal.OutOfMemory) }
{
    let mut texts = Vec::new(alloc);
    if let Some(first) = files.first() {
        texts.push(first.copy(alloc)?)?;
    }
    for arg in args {
        texts.push(arg.copy(alloc)?)?;
    }
    Ok(texts)
}

impl Plan {
    /// How a command runs its image, with the guard or without it.
    pub fn of(alloc: Global, guard: bool, command: &Command) -> Result<Plan, Refusal>
        ensures ok { IfOk result (λ plan. plan ≡ setup_of guard command.now) }
        ensures refused { IfErr result (λ refusal. refusal ≡ Refusal.OutOfMemory) }
    {
        let args = match arguments(alloc, &command.files, &command.args) {
            Ok(args) => args,
            Err(_) => return Err(Refusal::OutOfMemory),
        };
        Ok(Plan {
            budget: budget(command.cycles),
            guard,
            args,
        })
    }

    /// Runs an image.
    pub fn run<I: Source, O: Sink>(
        &self,
        alloc: Global,
        image: &Image,
        input: &mut I,
        out: &mut O,
    ) -> Result<u8, Refusal>
        ensures run { ImageRuns self.now image.now (I.left input.old) (I.left input.new) (O.written out.old) (O.written out.new) result }
        ensures read { ReadCause (I.faults input.old) (I.faults input.new) result }
        ensures write { WriteCause (O.faults out.old) (O.faults out.new) result }
    {
        let mut run = match Run::new(alloc, image, &self.args) {
            Ok(run) => run,
            Err(Refusal::TooLarge { limit, value }) => {
                return Err(Refusal::TooLarge { limit, value });
            }
            Err(_) => return Err(Refusal::OutOfMemory),
        };
        run.run(input, out, self.budget, self.guard)
    }
}
