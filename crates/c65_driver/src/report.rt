// The line of a refusal. Writing it takes no memory.
ghost use Rattle.std.specs.Prelude.{map};
ghost use Rattle.c65_base.specs.Lines.{joined, line_of};
ghost use Rattle.c65_io.specs.Causes.{HasCause};
ghost use Rattle.c65_io.specs.Told.{AppendsAll};

use c65_base::Refusal;
use c65_io::{Failed, Sink, write_all};

/// Writes the parts one after another.
fn write_parts<K: Sink>(sink: &mut K, parts: &[&[u8]]) -> Result<(), Failed>
    ensures bytes { AppendsAll (K.written sink.old) (K.written sink.new) (joined (map (λ p. p.now) parts.now)) result }
    ensures cause { HasCause (K.faults sink.old) (K.faults sink.new) result }
{
    let mut rest = parts;
    while let [first, after @ ..] = rest {
        let Ok(()) = write_all(sink, first) else {
            return Err(Failed);
        };
        rest = after;
    }
    Ok(())
}

/// Writes the line of a refusal.
pub fn write_line<K: Sink>(sink: &mut K, refusal: &Refusal) -> Result<(), Failed>
    ensures bytes { AppendsAll (K.written sink.old) (K.written sink.new) (line_of refusal.now) result }
    ensures cause { HasCause (K.faults sink.old) (K.faults sink.new) result }
{
    let line = refusal.line();
    let parts = line.parts();
    write_parts(sink, &parts)
}
