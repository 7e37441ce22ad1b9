// The outside as the tool sees it. What an object holds or has left is optional: `None` tells nothing.
ghost use Rattle.std.specs.Prelude.{◌≡◌, ◌≤◌, ◌<◌, List, ℕ, Option, length, IfOk, take};
ghost use Rattle.std.specs.Io.{ReadsAtMost, WritesAtMost};
ghost use Rattle.c65_io.specs.Causes.{HasCause};
ghost use Rattle.c65_io.specs.Told.{Taken, Appended};
ghost use Rattle.c65_io.specs.Contents.{Contents, ReadsFile, WritesFile, HasFileCause};

/// Why a read of a file gave nothing.
#[derive(Clone, Copy, Debug, PartialEq, Eq)]
pub enum FileFault {
    Missing,
    Failed,
}

/// A read or a write that failed.
#[derive(Clone, Copy, Debug, PartialEq, Eq)]
pub struct Failed;

/// Files by their path.
pub trait Files {
    /// The bytes of each path that is there, where the object tells them.
    ghost contents: { Self → Contents };

    /// How often a read has failed, a write has failed, and a path was missing.
    ghost faults: { Self → ℕ };

    ghost write_faults: { Self → ℕ };

    ghost misses: { Self → ℕ };

    /// Copies bytes of a file from byte `at` on.
    fn read(&mut self, path: &[u8], at: u32, into: &mut [u8]) -> Result<usize, FileFault>
        requires { 0 < length into.old }
        ensures bound { ReadsAtMost result into.new }
        ensures bytes { ReadsFile (contents self.old) path.now at into.new result }
        ensures same { contents self.new ≡ contents self.old }
        ensures cause { HasFileCause (faults self.old) (faults self.new) (misses self.old) (misses self.new) result }
        ensures writes { write_faults self.new ≡ write_faults self.old };

    /// Makes the path hold exactly these bytes.
    fn write(&mut self, path: &[u8], bytes: &[u8]) -> Result<(), Failed>
        ensures bytes { WritesFile (contents self.old) (contents self.new) path.now bytes.now result }
        ensures cause { HasCause (write_faults self.old) (write_faults self.new) result }
        ensures reads { faults self.new ≡ faults self.old }
        ensures missing { misses self.new ≡ misses self.old };
}

/// Bytes that come in.
pub trait Source {
    /// The bytes that are left, where the object tells them.
    ghost left: { Self → Option (List ℕ) };

    /// How often a read has failed.
    ghost faults: { Self → ℕ };

    /// Takes bytes from the front: at least one if one is left.
    fn read(&mut self, into: &mut [u8]) -> Result<usize, Failed>
        requires { 0 < length into.old }
        ensures bound { ReadsAtMost result into.new }
        ensures bytes { Taken (left self.old) (left self.new) into.new result }
        ensures cause { HasCause (faults self.old) (faults self.new) result };
}

/// Bytes that go out.
pub trait Sink {
    /// The bytes that were written, where the object tells them.
    ghost written: { Self → Option (List ℕ) };

    /// How often a write has failed.
    ghost faults: { Self → ℕ };

    /// Appends the first bytes of the piece, at least one.
    fn write(&mut self, bytes: &[u8]) -> Result<usize, Failed>
        requires { 0 < length bytes.now }
        ensures bound { WritesAtMost result bytes.now }
        ensures some { IfOk result (λ count. 0 < count) }
        ensures bytes { Appended (written self.old) (written self.new) bytes.now result }
        ensures cause { HasCause (faults self.old) (faults self.new) result };
}
