// Real files and streams. They tell nothing of their content.
ghost use Rattle.std.specs.Io.{ReadsAtMost};
ghost use Rattle.std.specs.Prelude.{◌≡◌, None, ◌<◌, ◌≤◌};

use crate::outside::{Failed, FileFault, Files, Sink, Source};
use std::io::{ErrorKind, Read, Seek, SeekFrom, Write};
use std::{fs, io, rt, str};

/// A source over any reader.
#[derive(Drop)]
pub struct HostSource<R: Read> {
    reader: R,
    faults: u64,
}

impl<R: Read> HostSource<R> {
    pub fn new(reader: R) -> HostSource<R>
        ensures { result.faults ≡ 0 }
    {
        HostSource { reader, faults: 0 }
    }
}

impl<R: Read> Source for HostSource<R> {
    ghost left = { λ s. None };

    ghost faults = { λ s. s.faults };

    fn read(&mut self, into: &mut [u8]) -> Result<usize, Failed> {
        match self.reader.read(into) {
            Ok(count) => Ok(count),
            Err(_) => {
                self.faults = self.faults.saturating_add(1);
                Err(Failed)
            }
        }
    }
}

/// A sink over any writer.
#[derive(Drop)]
pub struct HostSink<W: Write> {
    writer: W,
    faults: u64,
}

impl<W: Write> HostSink<W> {
    pub fn new(writer: W) -> HostSink<W>
        ensures { result.faults ≡ 0 }
    {
        HostSink { writer, faults: 0 }
    }
}

impl<W: Write> Sink for HostSink<W> {
    ghost written = { λ s. None };

    ghost faults = { λ s. s.faults };

    fn write(&mut self, bytes: &[u8]) -> Result<usize, Failed> {
        match self.writer.write(bytes) {
            Ok(count) if count > 0 => Ok(count),
            _ => {
                self.faults = self.faults.saturating_add(1);
                Err(Failed)
            }
        }
    }
}

/// Files of the host.
#[derive(Drop)]
pub struct HostFiles<'a, R: rt::Files> {
    rt: &'a R,
    faults: u64,
    write_faults: u64,
    misses: u64,
}

impl<'a, R: rt::Files> HostFiles<'a, R> {
    pub fn new(rt: &'a R) -> HostFiles<'a, R>
        ensures faults { result.faults ≡ 0 }
        ensures write_faults { result.write_faults ≡ 0 }
        ensures misses { result.misses ≡ 0 }
    {
        HostFiles {
            rt,
            faults: 0,
            write_faults: 0,
            misses: 0,
        }
    }
}

fn copy_from<F: Read + Seek>(file: &mut F, at: u32, into: &mut [u8]) -> io::Result<usize>
    ensures { ReadsAtMost result into.new }
{
    file.seek(SeekFrom::Start(u64::from(at)))?;
    file.read(into)
}

/// Whether an open that failed says that no file has this name: none is there, or the host takes no such name.
fn is_missing(kind: ErrorKind) -> bool {
    matches!(
        kind,
        ErrorKind::NotFound
            | ErrorKind::NotADirectory
            | ErrorKind::InvalidFilename
            | ErrorKind::InvalidInput
    )
}

impl<'a, R: rt::Files> Files for HostFiles<'a, R> {
    ghost contents = { λ f. None };

    ghost faults = { λ f. f.faults };

    ghost write_faults = { λ f. f.write_faults };

    ghost misses = { λ f. f.misses };

    fn read(&mut self, path: &[u8], at: u32, into: &mut [u8]) -> Result<usize, FileFault> {
        let Ok(name) = str::from_utf8(path) else {
            self.misses = self.misses.saturating_add(1);
            return Err(FileFault::Missing);
        };
        match fs::open(self.rt, name) {
            Ok(mut file) => match copy_from(&mut file, at, into) {
                Ok(count) => Ok(count),
                Err(_) => {
                    self.faults = self.faults.saturating_add(1);
                    Err(FileFault::Failed)
                }
            },
            Err(error) => {
                if is_missing(error.kind()) {
                    self.misses = self.misses.saturating_add(1);
                    Err(FileFault::Missing)
                } else {
                    self.faults = self.faults.saturating_add(1);
                    Err(FileFault::Failed)
                }
            }
        }
    }

    fn write(&mut self, path: &[u8], bytes: &[u8]) -> Result<(), Failed> {
        let written = match str::from_utf8(path) {
            Ok(name) => fs::write(self.rt, name, bytes).is_ok(),
            Err(_) => false,
        };
        if !written {
            self.write_faults = self.write_faults.saturating_add(1);
            return Err(Failed);
        }
        Ok(())
    }
}
