// From files to their program and its code.
ghost use Rattle.std.specs.Prelude.{◌≡◌, [], ◌∷◌, map, Some, IfOk, IfErr, length};
ghost use Rattle.c65_csem.specs.Views.{unit_of};
ghost use Rattle.c65_ppfile.specs.Counts.{FaultCause, MissCause};
ghost use Rattle.c65_ppline.specs.Relations.{Comes};
ghost use Rattle.c65_ppdir.specs.Units.{Held};
ghost use Rattle.c65_driver_chain.specs.Refused.{StopsChain, StopsLater, UnitsLimit};
ghost use Rattle.c65_driver_chain.specs.Compiled.{Compiles, outside};
ghost use Rattle.c65_init_join.specs.Joined.{joined};
ghost use Rattle.c65_driver_chain.specs.Front.{rest_spelling, rest_name, command, files_typed, joining, programs, IsGood, compiled};
ghost use Rattle.c65_driver_chain.specs.Joined.{program_in};

use crate::refused::of_all;
use crate::unit::typed_unit;
use c65_base::{Name, Names, Options, Refusal, Size, Text};
use c65_code::Code;
use c65_csem::{TProgram, TUnit};
use c65_csem_names::is_scoped;
use c65_csem_plain::is_plain;
use c65_genstmt::gen_program;
use c65_init_join::join;
use c65_io::Files;
use c65_ppdir::Define;
use std::alloc::Global;

/// The files that may be compiled together.
const UNITS: usize = 64;

/// The names that are known before all files: the one that stands for further arguments.
#[tactic(auto, using(crate::proofs::Answering::rest_is))]
fn first_names(alloc: Global) -> Result<(Name, Names), Refusal>
    ensures name { IfOk result (λ x. x.0 ≡ rest_name) }
    ensures names { IfOk result (λ x. x.1 ≡ rest_spelling ∷ []) }
{
    let mut names = Names::new(alloc);
    let rest = names.intern(b"__va_rest")?;
    Ok((rest, names))
}

/// The typed parts of the units, in the order of their files; in each `rest` stands for further arguments.
#[tactic(auto, using(crate::proofs::ChainLaws::compiles_then, crate::proofs::ChainLaws::compiles_of))]
fn typed_units<F: Files>(
    alloc: Global,
    files: &mut F,
    options: &Options,
    defines: &[Define],
    folders: &[Text],
    paths: &[Text],
    rest: Name,
    names: &mut Names,
) -> Result<Vec<TUnit>, Refusal>
    ensures compiles { Compiles folders.now (outside (F.contents files.old) (F.write_faults files.old) (F.faults files.old) (F.misses files.old))
        (outside (F.contents files.new) (F.write_faults files.new) (F.faults files.new) (F.misses files.new)) result }
    ensures exact { (held : Held) → F.contents files.old ≡ Some held → Comes (λ units. (map unit_of units.items, names.new)) (files_typed (command held options.now defines.now folders.now) rest paths.now [] names.old) result }
{
    let mut units = Vec::new(alloc);
    for path in paths {
        let unit = match typed_unit(alloc, files, options, defines, folders, path, rest, names) {
            Ok(unit) => unit,
            Err(refusal) => return Err(refusal),
        };
        let Ok(()) = units.push(unit) else {
            return Err(Refusal::OutOfMemory);
        };
    }
    Ok(units)
}

/// The program that units are. Its names are in scope and it is plain, as is all that typing makes: where the test of
/// this fails, want of memory stands.
fn program_of(alloc: Global, units: Vec<TUnit>, names: &Names) -> Result<TProgram, Refusal>
    ensures exact { Comes (λ p. (unit_of p.0, p.1)) (joining (joined names.now (map unit_of units.items))) result }
    ensures good { IfOk result (λ p. IsGood names.now (unit_of p.0) p.1) }
{
    let program = match join(alloc, units, names) {
        Ok(program) => program,
        Err(refusal) => return Err(refusal),
    };
    let Ok(true) = is_scoped(alloc, &program) else {
        return Err(Refusal::OutOfMemory);
    };
    let Ok(true) = is_plain(alloc, &program, names) else {
        return Err(Refusal::OutOfMemory);
    };
    Ok(program)
}

/// A program that files are together, and the names that they use.
#[derive(Drop)]
pub struct Joined {
    pub program: TProgram,
    pub names: Names,
}

/// The program that files are. The definitions stand before each file's first line; headers are sought in the folders.
///
/// More files than the limit are refused at once. Each file is then done in its order: preprocessing, scanning, parsing and typing,
/// each to its end or its first fault. Then comes joining.
#[tactic(auto, using(crate::proofs::ChainLaws::units_stop, crate::proofs::ChainLaws::units_few, crate::proofs::ChainLaws::later_stops, crate::proofs::ChainLaws::fault_later, crate::proofs::ChainLaws::miss_later))]
pub fn join_files<F: Files>(
    alloc: Global,
    files: &mut F,
    options: &Options,
    defines: &[Define],
    folders: &[Text],
    paths: &[Text],
) -> Result<Joined, Refusal>
    ensures refused { IfErr result StopsChain }
    ensures units { UnitsLimit (length paths.now) result }
    ensures read { FaultCause (F.faults files.old) (F.faults files.new) result }
    ensures missing { MissCause folders.now (F.misses files.old) (F.misses files.new) result }
    ensures same { F.contents files.new ≡ F.contents files.old }
    ensures writes { F.write_faults files.new ≡ F.write_faults files.old }
    ensures exact { (held : Held) → F.contents files.old ≡ Some held → Comes program_in (programs (command held options.now defines.now folders.now) paths.now) result }
    ensures good { IfOk result (λ x. IsGood x.names (unit_of x.program.0) x.program.1) }
{
    if paths.len() > UNITS {
        return Err(Refusal::TooLarge {
            limit: Size::Units,
            value: paths.len() as u64,
        });
    }
    let Ok((rest, mut names)) = first_names(alloc) else {
        return Err(Refusal::OutOfMemory);
    };
    let units = match typed_units(
        alloc, files, options, defines, folders, paths, rest, &mut names,
    ) {
        Ok(units) => units,
        Err(refusal) => return Err(refusal),
    };
    match program_of(alloc, units, &names) {
        Ok(program) => Ok(Joined { program, names }),
        Err(refusal) => Err(of_all(refusal)),
    }
}

/// The code of the program that files are: they are joined, and then comes generation.
#[tactic(auto, using(crate::proofs::ChainLaws::units_stop, crate::proofs::ChainLaws::units_few, crate::proofs::ChainLaws::later_stops, crate::proofs::ChainLaws::fault_later, crate::proofs::ChainLaws::miss_later))]
pub fn compile<F: Files>(
    alloc: Global,
    files: &mut F,
    options: &Options,
    defines: &[Define],
    folders: &[Text],
    paths: &[Text],
) -> Result<Code, Refusal>
    ensures refused { IfErr result StopsChain }
    ensures units { UnitsLimit (length paths.now) result }
    ensures read { FaultCause (F.faults files.old) (F.faults files.new) result }
    ensures missing { MissCause folders.now (F.misses files.old) (F.misses files.new) result }
    ensures same { F.contents files.new ≡ F.contents files.old }
    ensures writes { F.write_faults files.new ≡ F.write_faults files.old }
    ensures exact { (held : Held) → F.contents files.old ≡ Some held → Comes (λ c. c) (compiled (command held options.now defines.now folders.now) paths.now) result }
{
    let joined = match join_files(alloc, files, options, defines, folders, paths) {
        Ok(joined) => joined,
        Err(refusal) => return Err(refusal),
    };
    match gen_program(alloc, &joined.program, &joined.names, options) {
        Ok(code) => Ok(code),
        Err(refusal) => Err(of_all(refusal)),
    }
}
