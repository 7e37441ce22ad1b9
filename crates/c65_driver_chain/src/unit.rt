// One unit.
ghost use Rattle.std.specs.Prelude.{◌≡◌, Some};
ghost use Rattle.c65_base.specs.Answers.{Gives};
ghost use Rattle.c65_csem.specs.Views.{unit_of};
ghost use Rattle.c65_ppline.specs.Relations.{Comes};
ghost use Rattle.c65_ppdir.specs.Units.{Held};
ghost use Rattle.c65_driver_chain.specs.Compiled.{Compiles, outside};
ghost use Rattle.c65_driver_chain.specs.Front;
ghost use Rattle.c65_driver_chain.specs.Front.{command, file_typed};

use crate::refused::located;
use c65_base::{Name, Names, Options, Refusal, Text};
use c65_csem::TUnit;
use c65_init::elab_unit;
use c65_io::Files;
use c65_lex::PpUnit;
use c65_parse_law_exact::read_exactly;
use c65_ppdir::{Define, preprocess};
use c65_scan::scan;
use std::alloc::Global;

/// The typed parts of a preprocessed unit, or the first fault of scanning, parsing or typing.
fn typed(
    alloc: Global,
    options: &Options,
    rest: Name,
    unit: &PpUnit,
    names: &Names,
) -> Result<TUnit, Refusal>
    ensures { Gives unit_of result (Front.typed names.now options.now rest unit.now.tokens) }
{
    let tokens = match scan(alloc, unit, names) {
        Ok(tokens) => tokens,
        Err(refusal) => return Err(refusal),
    };
    let tree = match read_exactly(alloc, tokens.as_slice()) {
        Ok(tree) => tree,
        Err(refusal) => return Err(refusal),
    };
    elab_unit(alloc, &tree, options, rest)
}

/// The typed parts of the unit of a file, in which `rest` stands for further arguments.
pub fn typed_unit<F: Files>(
    alloc: Global,
    files: &mut F,
    options: &Options,
    defines: &[Define],
    folders: &[Text],
    path: &Text,
    rest: Name,
    names: &mut Names,
) -> Result<TUnit, Refusal>
    ensures compiles { Compiles folders.now (outside (F.contents files.old) (F.write_faults files.old) (F.faults files.old) (F.misses files.old))
        (outside (F.contents files.new) (F.write_faults files.new) (F.faults files.new) (F.misses files.new)) result }
    ensures exact { (held : Held) → F.contents files.old ≡ Some held → Comes (λ u. (unit_of u, names.new)) (file_typed (command held options.now defines.now folders.now) rest path.now names.old) result }
{
    let unit = match preprocess(alloc, files, options, defines, folders, path, names) {
        Ok(unit) => unit,
        Err(refusal) => return Err(refusal),
    };
    match typed(alloc, options, rest, &unit, names) {
        Ok(parts) => Ok(parts),
        Err(refusal) => Err(located(alloc, refusal, unit.files)),
    }
}
