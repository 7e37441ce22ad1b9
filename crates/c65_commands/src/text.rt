// Reading the front of a file.
ghost use Rattle.std.specs.Prelude.{◌≡◌, ◌≤◌, ◌<◌};
ghost use Rattle.c65_commands.specs.Text.{ReadsText, ReadsSome};
ghost use Rattle.c65_commands.specs.Causes.{MissCause};
ghost use Rattle.c65_sim.specs.Runs.{ReadCause};

use c65_base::{Refusal, Text};
use c65_io::{FileFault, Files};
use std::alloc::Global;

const PIECE: usize = 512;

/// Reads the front of a file, and keeps no more than so many bytes of it.
pub fn read_text<F: Files>(
    alloc: Global,
    files: &mut F,
    path: &[u8],
    most: usize,
) -> Result<Text, Refusal>
    requires some { 0 < most }
    requires few { most ≤ 65549 }
    ensures text { ReadsText most (F.contents files.old) path.now result }
    ensures some { ReadsSome path.now result }
    ensures same { F.contents files.new ≡ F.contents files.old }
    ensures read { ReadCause (F.faults files.old) (F.faults files.new) result }
    ensures missing { MissCause (F.misses files.old) (F.misses files.new) result }
    ensures writes { F.write_faults files.new ≡ F.write_faults files.old }
{
    let name = Text::copy_of(alloc, path)?;
    let mut text = Vec::new(alloc);
    let mut piece = [0u8; PIECE];
    while text.len() < most {
        match files.read(path, text.len() as u32, &mut piece) {
            Ok(0) => return Ok(Text::from_vec(text)),
            Ok(count) => {
                let Ok(()) = text.extend_from_slice(&piece[..count]) else {
                    return Err(Refusal::OutOfMemory);
                };
            }
            Err(FileFault::Missing) => return Err(Refusal::Missing { path: name }),
            Err(FileFault::Failed) => return Err(Refusal::ReadFault),
        }
    }
    text.truncate(most);
    Ok(Text::from_vec(text))
}
