// From a file to the image that it spells.
ghost use Rattle.std.specs.Prelude.{◌≡◌};
ghost use Rattle.c65_commands.specs.Told.{ToldImage, SomeImage};
ghost use Rattle.c65_commands.specs.Causes.{MissCause};
ghost use Rattle.c65_sim.specs.Runs.{ReadCause};

use crate::text::read_text;
use c65_base::Refusal;
use c65_io::Files;
use c65_mach::Image;
use std::alloc::Global;

/// As many bytes as the longest image has, and one more: later bytes change no answer.
const IMAGE: usize = 65_549;

/// The image that a file spells.
pub fn spelled_image<F: Files>(alloc: Global, files: &mut F, path: &[u8]) -> Result<Image, Refusal>
    ensures told { ToldImage (F.contents files.old) path.now result }
    ensures some { SomeImage path.now result }
    ensures read { ReadCause (F.faults files.old) (F.faults files.new) result }
    ensures missing { MissCause (F.misses files.old) (F.misses files.new) result }
    ensures same { F.contents files.new ≡ F.contents files.old }
    ensures writes { F.write_faults files.new ≡ F.write_faults files.old }
{
    let bytes = match read_text(alloc, files, path, IMAGE) {
        Ok(bytes) => bytes,
        Err(refusal) => return Err(refusal),
    };
    match Image::parse(alloc, bytes.as_slice()) {
        Ok(image) => Ok(image),
        Err(Refusal::BadImage { offset }) => Err(Refusal::BadImage { offset }),
        Err(_) => Err(Refusal::OutOfMemory),
    }
}
