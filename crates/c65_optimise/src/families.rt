// The families of rules in turn, until no rule of any of them matches anywhere.
ghost use Rattle.std.specs.Prelude.{◌≡◌, ⊤};
ghost use Rattle.c65_base.specs.declared.options.Cpu.TheVariants.{Nmos, Cmos};
ghost use Rattle.c65_optimise.specs.Optimised.{family_at, rules_of, IsRuleFor};
ghost use Rattle.c65_pass.specs.Rounds.{IsPassed};

use c65_base::{Cpu, Options, Refusal};
use c65_c02::optimise_c02;
use c65_know::Noted;
use c65_optarith::optimise_arith;
use c65_optflow::optimise_flow;
use c65_optload::optimise_load;
use c65_optstack::optimise_stack;
use c65_pass::{Rules, run_rules};
use std::alloc::Global;

/// Rules that are of one kind.
#[derive(Clone, Copy, Debug, PartialEq, Eq)]
pub enum Family {
    /// On the software stack.
    Stack,
    /// On jumps, branches and labels.
    Flow,
    /// On loads, stores and transfers.
    Load,
    /// On arithmetic, comparisons and flags.
    Arith,
    /// For the 65C02.
    Processor,
}

// The family whose turn it is in a round.
fn family_at(turn: u8) -> Family
    ensures { result ≡ family_at turn }
{
    match turn {
        0 => Family::Stack,
        1 => Family::Flow,
        2 => Family::Load,
        3 => Family::Arith,
        _ => Family::Processor,
    }
}

// The rules of a family, until none of them matches anywhere.
fn rewrite_by(
    alloc: Global,
    code: &mut Noted,
    options: &Options,
    family: Family,
) -> Result<usize, Refusal>
    ensures { IsPassed (rules_of family) code.old code.new result }
{
    match family {
        Family::Stack => optimise_stack(alloc, code, options),
        Family::Flow => optimise_flow(alloc, code, options),
        Family::Load => optimise_load(alloc, code, options),
        Family::Arith => optimise_arith(alloc, code, options),
        Family::Processor => optimise_c02(alloc, code, options),
    }
}

// The families that both processors know.
#[derive(Drop)]
struct NmosFamilies<'a> {
    options: &'a Options,
}

impl Rules for NmosFamilies<'_> {
    ghost first = { 0 };

    ghost end = { 4 };

    ghost among = { λ turn. rules_of (family_at turn) };

    ghost ready = { λ families code. ⊤ };

    fn run(&mut self, alloc: Global, code: &mut Noted, turn: u8) -> Result<usize, Refusal> {
        rewrite_by(alloc, code, self.options, family_at(turn))
    }
}

// These, and last in each round that of the 65C02.
#[derive(Drop)]
struct CmosFamilies<'a> {
    options: &'a Options,
}

impl Rules for CmosFamilies<'_> {
    ghost first = { 0 };

    ghost end = { 5 };

    ghost among = { λ turn. rules_of (family_at turn) };

    ghost ready = { λ families code. ⊤ };

    fn run(&mut self, alloc: Global, code: &mut Noted, turn: u8) -> Result<usize, Refusal> {
        rewrite_by(alloc, code, self.options, family_at(turn))
    }
}

fn rewrite_nmos(alloc: Global, code: &mut Noted, options: &Options) -> Result<usize, Refusal>
    ensures { IsPassed (IsRuleFor Nmos) code.old code.new result }
{
    run_rules(alloc, code, &mut NmosFamilies { options }, 0, 4)
}

fn rewrite_cmos(alloc: Global, code: &mut Noted, options: &Options) -> Result<usize, Refusal>
    ensures { IsPassed (IsRuleFor Cmos) code.old code.new result }
{
    run_rules(alloc, code, &mut CmosFamilies { options }, 0, 5)
}

/// Rewrites by the rules of all families that are for the processor of the options, until none of them matches anywhere, and
/// answers how often.
pub fn rewrite(alloc: Global, code: &mut Noted, options: &Options) -> Result<usize, Refusal>
    ensures { IsPassed (IsRuleFor options.now.cpu) code.old code.new result }
{
    match options.cpu {
        Cpu::Nmos => rewrite_nmos(alloc, code, options),
        Cpu::Cmos => rewrite_cmos(alloc, code, options),
    }
}
