// Whole programs.
ghost use Rattle.std.specs.Prelude.{◌≡◌, OnOk, IfErr, Ok};
ghost use Rattle.c65_base.specs.Answers.{Gives, Fails};
ghost use Rattle.c65_csem.specs.Views.{func_of};
ghost use Rattle.c65_genframe.specs.Modes.{modes_of};
ghost use Rattle.c65_genframe.specs.Symbols.{numbers_of};
ghost use Rattle.c65_genstmt.specs.Programs.{takes_arguments, function_added, functions_of, program_of};

use crate::function::segment_of;
use c65_base::{Names, Options, Refusal};
use c65_code::{Code, Items, Seg, Sym};
use c65_csem::{Parts, TFunc, TProgram};
use c65_gendata::{gen_data, gen_symbols};
use c65_genframe::{Modes, Numbers};
use std::alloc::Global;

/// Whether main takes arguments.
fn takes_arguments(parts: &Parts, main: u32) -> bool
    ensures { result ≡ takes_arguments parts.now main }
{
    match parts.funcs.get(main as usize) {
        Some(function) => !function.params.is_empty(),
        None => false,
    }
}

/// Adds the function of this number, if it has a body.
#[tactic(auto, using(crate::proofs::Answering::memory_fails, crate::proofs::Answering::fails_before, crate::proofs::Answering::goes_on))]
fn add_function(
    alloc: Global,
    parts: &Parts,
    numbers: Numbers,
    main: u32,
    modes: Modes,
    number: u32,
    function: &TFunc,
    into: &mut Vec<(Sym, Seg)>,
) -> Result<(), Refusal>
    requires { numbers ≡ numbers_of parts.now }
    ensures ok { OnOk result (function_added parts.now main modes number (func_of function.now) into.old.items ≡ Ok into.new.items) }
    ensures refused { IfErr result (λ e. Fails e (function_added parts.now main modes number (func_of function.now) into.old.items)) }
{
    match &function.body {
        Some(_) => {
            let segment = segment_of(alloc, parts, function, number == main, modes)?;
            into.push((numbers.function(number), segment))?;
            Ok(())
        }
        None => Ok(()),
    }
}

/// The functions of a program that have a body, in the order of their numbers.
#[tactic(auto, using(crate::proofs::Answering::memory_fails))]
fn gen_functions(
    alloc: Global,
    parts: &Parts,
    main: u32,
    modes: Modes,
) -> Result<Vec<(Sym, Seg)>, Refusal>
    ensures { Gives (λ v. v.items) result (functions_of parts.now main modes) }
{
    let numbers = Numbers::of(parts)?;
    let mut functions = Vec::new(alloc);
    for (number, function) in parts.funcs.iter().enumerate() {
        add_function(
            alloc,
            parts,
            numbers,
            main,
            modes,
            number as u32,
            function,
            &mut functions,
        )?;
    }
    Ok(functions)
}

/// A program as lines and data. Its symbols are its objects, its literals and its functions in this
/// order; an external name is spelled `_NAME`, a literal `qN` and anything else `sN`, N the symbol's
/// number. Needs the table that gave the program's names. Refuses `Frame` at the first function
/// whose parameters and automatic objects have more than 1,024 bytes, and otherwise for want of
/// memory alone.
#[tactic(auto, using(crate::proofs::Answering::memory_fails, crate::proofs::Answering::fails_before, crate::proofs::Answering::goes_on))]
pub fn gen_program(
    alloc: Global,
    program: &TProgram,
    names: &Names,
    options: &Options,
) -> Result<Code, Refusal>
    ensures { Gives (λ c. c) result (program_of program.now.0 program.now.1 names.now (modes_of options.now)) }
{
    let parts = program.unit().parts();
    let functions = gen_functions(alloc, parts, program.main(), Modes::of(options))?;
    let symbols = gen_symbols(alloc, program, names)?;
    let datums = gen_data(alloc, program)?;
    Ok(Code {
        symbols: Items::from_vec(symbols),
        functions: Items::from_vec(functions),
        datums: Items::from_vec(datums),
        main_args: takes_arguments(parts, program.main()),
    })
}
