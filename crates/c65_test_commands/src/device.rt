// Files in memory behind a device that gives a few bytes at a time, or loses the end of a file while it is read.
ghost use Rattle.std.specs.Prelude.{None};

use c65_io::{Failed, FileFault, Files, MemFiles};

/// Files in memory that are read through a device. It tells nothing of their content.
#[derive(Drop)]
pub struct Device {
    pub files: MemFiles,
    /// The most bytes that a read gives.
    pub piece: usize,
    /// The bytes that are left of each file once its first read is done.
    pub left: u32,
    faults: u64,
    write_faults: u64,
    misses: u64,
}

impl Device {
    /// A device that gives as many bytes as are asked for, and loses none.
    pub fn new(files: MemFiles) -> Device {
        Device {
            files,
            piece: usize::MAX,
            left: u32::MAX,
            faults: 0,
            write_faults: 0,
            misses: 0,
        }
    }

    /// How many bytes a read from `at` on may give.
    fn most(&self, at: u32, asked: usize) -> usize {
        let most = asked.min(self.piece.max(1));
        if at == 0 {
            return most;
        }
        most.min(usize::try_from(self.left.saturating_sub(at)).unwrap_or(usize::MAX))
    }
}

impl Files for Device {
    ghost contents = { λ d. None };

    ghost faults = { λ d. d.faults };

    ghost write_faults = { λ d. d.write_faults };

    ghost misses = { λ d. d.misses };

    fn read(&mut self, path: &[u8], at: u32, into: &mut [u8]) -> Result<usize, FileFault> {
        let most = self.most(at, into.len());
        if most == 0 || most > into.len() {
            return Ok(0);
        }
        match self.files.read(path, at, &mut into[..most]) {
            Ok(count) => Ok(count),
            Err(FileFault::Missing) => {
                self.misses = self.misses.saturating_add(1);
                Err(FileFault::Missing)
            }
            Err(FileFault::Failed) => {
                self.faults = self.faults.saturating_add(1);
                Err(FileFault::Failed)
            }
        }
    }

    fn write(&mut self, path: &[u8], bytes: &[u8]) -> Result<(), Failed> {
        let Ok(()) = self.files.write(path, bytes) else {
            self.write_faults = self.write_faults.saturating_add(1);
            return Err(Failed);
        };
        Ok(())
    }
}
