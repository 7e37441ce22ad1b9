// The call of the preprocessor, with what the law says of its answer.
ghost use Rattle.std.specs.Prelude.{◌≡◌, Some};
ghost use Rattle.c65_ppdir.specs.Units;
ghost use Rattle.c65_ppdir.specs.Units.{Held};
ghost use Rattle.c65_ppdir_law.specs.Once.{IsAnswered, IsDecided, WholeAnswer};

use c65_base::{Names, Options, Refusal, Text};
use c65_io::Files;
use c65_lex::PpUnit;
use c65_ppdir::Define;
use std::alloc::Global;

/// The unit or the refusal that told files, options, definitions, folders and a path have, unless memory runs out or a read
/// fails.
pub fn preprocess<F: Files>(
    alloc: Global,
    files: &mut F,
    options: &Options,
    defines: &[Define],
    folders: &[Text],
    path: &Text,
    names: &mut Names,
) -> Result<PpUnit, Refusal>
    ensures { (held : Held) (z : WholeAnswer) → F.contents files.old ≡ Some held → IsDecided z → Units.preprocessed held options.now defines.now folders.now path.now names.old z → IsAnswered (λ unit. (unit, names.new)) result z }
{
    c65_ppdir::preprocess(alloc, files, options, defines, folders, path, names)
}
