// Files in memory, which tell their content and fail at listed calls.
ghost use Rattle.std.specs.Prelude.{◌≡◌, ◌≤◌, ◌<◌, ◌-◌, ◌↔◌, ◌⊎◌, List, ℕ, [], Some, IfErr, IsErr, IsSome, OnErr, OnOk, Contains, length, take, drop, option_map, bytes_eq};
ghost use Rattle.std.specs.List.{position};
ghost use Rattle.std.specs.Io.{ReadsAtMost};
ghost use Rattle.c65_base.specs.declared.refusal.Refusal.TheVariants.{OutOfMemory};
ghost use Rattle.c65_io.specs.Causes.{HasCause, Rose};
ghost use Rattle.c65_io.specs.Contents.{ReadsFile, WritesFile, WritesPath, HasFileCause};
ghost use Rattle.c65_io.specs.Memory.{next_count};
ghost use Rattle.c65_io.specs.MemFiles.{MemFilesView, held_by};

use crate::memory::is_listed;
use crate::outside::{Failed, FileFault, Files};
use c65_base::{Refusal, Text};
use std::alloc::{AllocError, Global};
use std::marker::Model;

/// A path and its bytes.
#[derive(Drop)]
pub struct MemFile {
    pub path: Text,
    pub bytes: Text,
}

/// Files in memory by their path.
#[derive(Drop)]
pub struct MemFiles {
    alloc: Global,
    files: Vec<MemFile>,
    fail: Vec<u32>,
    calls: u64,
    faults: u64,
    write_faults: u64,
    misses: u64,
    lacks: u64,
}

impl Model for MemFiles {
    ghost use Rattle.c65_io.specs.MemFiles.{MemFilesView};

    ghost Value = { MemFilesView };

    ghost view = { λ f. record { files = f.files.items; fail = f.fail.items; calls = f.calls; faults = f.faults; write_faults = f.write_faults; misses = f.misses; lacks = f.lacks } };
}

/// No files yet, and failures at the listed calls. Reads and writes are counted together, from 1.
pub fn mem_files(alloc: Global, fail: Vec<u32>) -> MemFiles
    ensures { result ≡ record { files = []; fail = fail.items; calls = 0; faults = 0; write_faults = 0; misses = 0; lacks = 0 } }
{
    MemFiles {
        alloc,
        files: Vec::new(alloc),
        fail,
        calls: 0,
        faults: 0,
        write_faults: 0,
        misses: 0,
        lacks: 0,
    }
}

/// Where a path stands among the files.
fn find_file(files: &[MemFile], path: &[u8]) -> Option<usize>
    ensures { result ≡ position (λ file. bytes_eq file.path path.now) files.now }
{
    files.iter().position(|file| file.path.as_slice() == path)
}

/// The bytes of a path, if it is there.
fn held<'a>(files: &'a [MemFile], path: &[u8]) -> Option<&'a [u8]>
    ensures { option_map (λ bytes. bytes.now) result ≡ held_by files.now path.now }
{
    match find_file(files, path) {
        Some(index) => Some(files[index].bytes.as_slice()),
        None => None,
    }
}

/// Copies as many of the bytes from `at` on as there are and as there is room for.
fn copy_at(bytes: &[u8], at: usize, into: &mut [u8]) -> usize
    ensures room { result ≤ length into.new }
    ensures copied { take result into.new ≡ take result (drop at bytes.now) }
    ensures part { result ≤ length bytes.now - at }
    ensures some { 0 < length into.old → result ≡ 0 → length bytes.now ≤ at }
{
    if at >= bytes.len() {
        return 0;
    }
    let count = (bytes.len() - at).min(into.len());
    into[..count].copy_from_slice(&bytes[at..at + count]);
    count
}

/// Puts a file in the place of the one of its path, or behind the others.
fn store(files: &mut Vec<MemFile>, file: MemFile) -> Result<(), AllocError>
    ensures held { WritesPath (held_by files.old.items) (held_by files.new.items) file.path file.bytes result }
    ensures kept { OnErr result (files.new.items ≡ files.old.items) }
{
    match find_file(files, file.path.as_slice()) {
        Some(index) => files[index] = file,
        None => files.push(file)?,
    }
    Ok(())
}

/// Makes the path hold a copy of the bytes.
fn replace(
    alloc: Global,
    files: &mut Vec<MemFile>,
    path: &[u8],
    bytes: &[u8],
) -> Result<(), AllocError>
    ensures held { WritesPath (held_by files.old.items) (held_by files.new.items) path.now bytes.now result }
    ensures kept { OnErr result (files.new.items ≡ files.old.items) }
{
    let path = Text::copy_of(alloc, path)?;
    let bytes = Text::copy_of(alloc, bytes)?;
    store(files, MemFile { path, bytes })
}

impl MemFiles {
    /// Adds or replaces a file. It is no counted call.
    pub fn put(&mut self, path: Vec<u8>, bytes: Vec<u8>) -> Result<(), Refusal>
        ensures held { WritesPath (held_by self.old.files) (held_by self.new.files) path.items bytes.items result }
        ensures others { self.new ≡ record self.old { files = self.new.files } }
        ensures kept { OnErr result (self.new ≡ self.old) }
        ensures memory { IfErr result (λ refusal. refusal ≡ OutOfMemory) }
    {
        let file = MemFile {
            path: Text::from_vec(path),
            bytes: Text::from_vec(bytes),
        };
        store(&mut self.files, file)?;
        Ok(())
    }

    /// The bytes of a path, if it is there.
    pub fn get(&self, path: &[u8]) -> Option<&[u8]>
        ensures { option_map (λ bytes. bytes.now) result ≡ held_by self.now.files path.now }
    {
        held(&self.files, path)
    }
}

impl Files for MemFiles {
    ghost contents = { λ f. Some (held_by f.files) };

    ghost faults = { λ f. f.faults };

    ghost write_faults = { λ f. f.write_faults };

    ghost misses = { λ f. f.misses };

    fn read(&mut self, path: &[u8], at: u32, into: &mut [u8]) -> Result<usize, FileFault>
        requires { 0 < length into.old }
        ensures bound { ReadsAtMost result into.new }
        ensures bytes { ReadsFile (Some (held_by self.old.files)) path.now at into.new result }
        ensures same { self.new.files ≡ self.old.files }
        ensures cause { HasFileCause self.old.faults self.new.faults self.old.misses self.new.misses result }
        ensures writes { self.new.write_faults ≡ self.old.write_faults }
        ensures calls { self.new.calls ≡ next_count self.old.calls }
        ensures fail { self.new.fail ≡ self.old.fail }
        ensures listed { (result ≡ Err FileFault.Failed) ↔ (Contains self.old.fail (next_count self.old.calls) × IsSome (held_by self.old.files path.now)) }
    {
        self.calls = self.calls.saturating_add(1);
        let Some(bytes) = held(&self.files, path) else {
            self.misses = self.misses.saturating_add(1);
            return Err(FileFault::Missing);
        };
        if is_listed(&self.fail, self.calls) {
            self.faults = self.faults.saturating_add(1);
            return Err(FileFault::Failed);
        }
        Ok(copy_at(bytes, at as usize, into))
    }

    fn write(&mut self, path: &[u8], bytes: &[u8]) -> Result<(), Failed>
        ensures bytes { WritesFile (Some (held_by self.old.files)) (Some (held_by self.new.files)) path.now bytes.now result }
        ensures kept { OnErr result (self.new.files ≡ self.old.files) }
        ensures cause { HasCause self.old.write_faults self.new.write_faults result }
        ensures reads { self.new.faults ≡ self.old.faults }
        ensures missing { self.new.misses ≡ self.old.misses }
        ensures calls { self.new.calls ≡ next_count self.old.calls }
        ensures fail { self.new.fail ≡ self.old.fail }
        ensures listed { Contains self.old.fail (next_count self.old.calls) → IsErr result × (self.new.lacks ≡ self.old.lacks) }
        ensures memory { OnErr result (Contains self.old.fail (next_count self.old.calls) ⊎ Rose self.old.lacks self.new.lacks) }
    {
        self.calls = self.calls.saturating_add(1);
        if is_listed(&self.fail, self.calls) {
            self.write_faults = self.write_faults.saturating_add(1);
            return Err(Failed);
        }
        if replace(self.alloc, &mut self.files, path, bytes).is_err() {
            self.lacks = self.lacks.saturating_add(1);
            self.write_faults = self.write_faults.saturating_add(1);
            return Err(Failed);
        }
        Ok(())
    }
}
