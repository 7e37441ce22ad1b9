// Runs with a budget.
ghost use Rattle.std.specs.Prelude.{◌≡◌, ℕ, ◌+◌, ◌-◌, ◌^◌, ◌<◌, ◌≤◌, ◌⊎◌, false, min, List, IfOk, IfErr, Result};
ghost use Rattle.c65_sim.specs.Budgets.{number_of, price_of};
ghost use Rattle.c65_sim.specs.Differing.{either};
ghost use Rattle.c65_sim.specs.Runs.{answer_of, Goes, Runs, ReadCause, WriteCause, IfReadFails, Starts};
ghost use Rattle.c65_sim.specs.Turns.{StopsAtFault};
ghost use Rattle.c65_sim.specs.View.{RunView, ComputerView, started, arguments_size};

use crate::hooks::Computer;
use crate::stop::Stop;
use c65_base::{Refusal, Size, Text};
use c65_io::{Sink, Source};
use c65_mach::Image;
use std::alloc::{AllocError, Global};
use std::marker::Model;

/// The greatest size of a program's arguments.
const ARGUMENTS: u64 = 1_024;

/// How far a run may go in one call. A hook counts as one row of 6 cycles.
#[derive(Clone, Copy, Debug, PartialEq, Eq)]
pub enum Budget {
    /// So many rows.
    Instructions(u64),
    /// Rows, until at least so many cycles are done.
    Cycles(u64),
}

impl Budget {
    fn number(self) -> u64
        ensures { result ≡ number_of self }
    {
        match self {
            Budget::Instructions(number) | Budget::Cycles(number) => number,
        }
    }

    /// What a row of so many cycles costs.
    fn price(self, cycles: u8) -> u64
        ensures { result ≡ price_of self cycles }
    {
        match self {
            Budget::Instructions(_) => 1,
            Budget::Cycles(_) => u64::from(cycles),
        }
    }
}

/// The rows that were done, whether the processors differ in one of them, and why no more were.
#[derive(Clone, Copy, Debug)]
struct Leg {
    rows: u64,
    differed: bool,
    stop: Stop,
}

fn either(first: bool, second: bool) -> bool
    ensures { result ≡ either first second }
{
    first || second
}

/// Does rows until the budget is used up or the computer stops. The run has done `count` rows before.
fn go_on<I: Source, O: Sink>(
    computer: &mut Computer,
    input: &mut I,
    out: &mut O,
    budget: Budget,
    guard: bool,
    count: u64,
) -> Leg
    requires { computer.old.is_at_end ≡ false }
    ensures leg { Goes budget guard count computer.old computer.new (I.left input.old) (I.left input.new) (O.written out.old) (O.written out.new) result.rows result.differed (answer_of budget computer.new.machine.pc result.stop) }
    ensures fits { count + result.rows < 2 ^ 64 }
    ensures reads { ReadCause (I.faults input.old) (I.faults input.new) (answer_of budget computer.new.machine.pc result.stop) }
    ensures writes { WriteCause (O.faults out.old) (O.faults out.new) (answer_of budget computer.new.machine.pc result.stop) }
    ensures last { IfReadFails (answer_of budget computer.new.machine.pc result.stop) (StopsAtFault I.left I.faults input.old input.new) }
{
    let number = budget.number();
    let most = u64::MAX - count;
    let mut spent: u64 = 0;
    let mut differed = false;
    for rows in 0..most {
        if spent >= number {
            return Leg {
                rows,
                differed,
                stop: Stop::Limit,
            };
        }
        let differs = computer.jumps_at_page_end();
        match computer.turn(input, out, guard) {
            Ok(cycles) => {
                spent = spent.saturating_add(budget.price(cycles));
                differed = either(differed, differs);
            }
            Err(stop) => {
                return Leg {
                    rows,
                    differed,
                    stop,
                };
            }
        }
    }
    Leg {
        rows: most,
        differed,
        stop: Stop::Limit,
    }
}

fn answer(budget: Budget, pc: u16, stop: Stop) -> Result<u8, Refusal>
    ensures { result ≡ answer_of budget pc stop }
{
    match stop {
        Stop::Exit(status) => Ok(status),
        Stop::Limit => Err(Refusal::Limit {
            count: budget.number(),
        }),
        Stop::HardStack => Err(Refusal::HardStack { pc }),
        Stop::Illegal => Err(Refusal::Illegal { pc }),
        Stop::ReadFault => Err(Refusal::ReadFault),
        Stop::WriteFault => Err(Refusal::WriteFault),
    }
}

/// The bytes that arguments take on the software stack, with a zero byte behind each and the list of their addresses,
/// up to the greatest u64.
pub fn arguments_size(args: &[Text]) -> u64
    ensures { result ≡ min (arguments_size args.now) (2 ^ 64 - 1) }
{
    let mut size = (args.len() as u64).saturating_add(1).saturating_mul(2);
    for arg in args {
        size = size
            .saturating_add(arg.as_slice().len() as u64)
            .saturating_add(1);
    }
    size
}

fn copies(alloc: Global, args: &[Text]) -> Result<Vec<Text>, AllocError>
    ensures { IfOk result (λ copies. copies.items ≡ args.now) }
{
    let mut copies = Vec::new(alloc);
    for arg in args {
        copies.push(Text::copy_of(alloc, arg.as_slice())?)?;
    }
    Ok(copies)
}

/// A run of an image. It can be continued, and stands still once it has ended.
#[derive(Drop)]
pub struct Run {
    computer: Computer,
    count: u64,
    differed: bool,
    status: Option<u8>,
}

impl Model for Run {
    ghost use Rattle.c65_sim.specs.View.{RunView};

    ghost Value = { RunView };

    ghost view = { λ r. record { setting = r.computer.setting; machine = r.computer.machine; count = r.count; differed = r.differed; status = r.status } };
}

impl Run {
    /// A run of an image on its processor with these arguments, before its first row. It takes all the memory that the run needs. Arguments of
    /// more than 1,024 bytes, with a zero byte behind each and the list of their addresses, are refused.
    pub fn new(alloc: Global, image: &Image, args: &[Text]) -> Result<Run, Refusal>
        ensures { Starts image.now args.now result }
    {
        let value = arguments_size(args);
        if value > ARGUMENTS {
            return Err(Refusal::TooLarge {
                limit: Size::Arguments,
                value,
            });
        }
        let args = copies(alloc, args)?;
        let computer = Computer::new(alloc, image, args)?;
        Ok(Run {
            computer,
            count: 0,
            differed: false,
            status: None,
        })
    }

    /// Does rows until the program ends, within the budget, and answers the program's status. With the guard on, a row that
    /// would push a byte while S is 0 is refused. It takes no memory. After a refusal the run stands before the next row,
    /// or before the hook that failed, and a further call goes on from there; what was read or written stays so. After a failed read
    /// nothing more is read.
    pub fn run<I: Source, O: Sink>(
        &mut self,
        input: &mut I,
        out: &mut O,
        budget: Budget,
        guard: bool,
    ) -> Result<u8, Refusal>
        ensures run { Runs budget guard self.old self.new (I.left input.old) (I.left input.new) (O.written out.old) (O.written out.new) result }
        ensures reads { ReadCause (I.faults input.old) (I.faults input.new) result }
        ensures writes { WriteCause (O.faults out.old) (O.faults out.new) result }
        ensures last { IfReadFails result (StopsAtFault I.left I.faults input.old input.new) }
    {
        if let Some(status) = self.status {
            return Ok(status);
        }
        self.computer.reopen();
        let leg = go_on(&mut self.computer, input, out, budget, guard, self.count);
        self.differed = either(self.differed, leg.differed);
        match answer(budget, self.computer.pc(), leg.stop) {
            Ok(status) => {
                // The exit is a row too.
                self.count += leg.rows + 1;
                self.status = Some(status);
                Ok(status)
            }
            Err(refusal) => {
                self.count += leg.rows;
                Err(refusal)
            }
        }
    }

    /// The rows done so far, in all calls.
    pub fn count(&self) -> u64
        ensures { result ≡ self.now.count }
    {
        self.count
    }

    /// Whether a `JMP (abs)` whose operand has the low byte $FF was done so far. The 65C02 does such a jump differently from
    /// the 6502.
    pub fn differed(&self) -> bool
        ensures { result ≡ self.now.differed }
    {
        self.differed
    }
}
