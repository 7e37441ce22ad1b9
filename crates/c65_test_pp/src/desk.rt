// Units of files in memory.
use c65_base::{Names, Options, Refusal, Text};
use c65_io::{MemFiles, mem_files};
use c65_lex::PpKind;
use c65_ppdir::{Define, PpUnit, preprocess};
use std::alloc::Global;

/// What units are made of: files by path, definitions of the command line, and folders in which headers are sought.
#[derive(Drop)]
pub struct Desk {
    pub files: MemFiles,
    pub defines: Vec<Define>,
    pub folders: Vec<Text>,
}

impl Desk {
    /// Nothing, and files of which the call with this number fails, unless it is 0.
    pub fn new(alloc: Global, fail: u32) -> Result<Desk, Refusal> {
        Ok(Desk {
            files: mem_files(alloc, Vec::from_slice(alloc, &[fail])?),
            defines: Vec::new(alloc),
            folders: Vec::new(alloc),
        })
    }

    /// Makes a file of this text.
    pub fn put(&mut self, alloc: Global, path: &str, text: Vec<u8>) -> Result<(), Refusal> {
        self.files
            .put(Vec::from_slice(alloc, path.as_bytes())?, text)
    }

    /// Adds a text, so many times, to what a file has.
    pub fn add(
        &mut self,
        alloc: Global,
        path: &str,
        count: u32,
        text: &[u8],
    ) -> Result<(), Refusal> {
        let mut bytes = Vec::from_slice(alloc, self.files.get(path.as_bytes()).unwrap_or(&[]))?;
        for _ in 0..count {
            bytes.extend_from_slice(text)?;
        }
        self.put(alloc, path, bytes)
    }

    /// Doubles the text of a file, so many times.
    pub fn double(&mut self, alloc: Global, path: &str, times: u32) -> Result<(), Refusal> {
        for _ in 0..times {
            let text = Vec::from_slice(alloc, self.files.get(path.as_bytes()).unwrap_or(&[]))?;
            self.add(alloc, path, 1, text.as_slice())?;
        }
        Ok(())
    }

    pub fn define(&mut self, alloc: Global, name: &str, body: Vec<u8>) -> Result<(), Refusal> {
        self.defines.push(Define {
            name: Text::copy_of(alloc, name.as_bytes())?,
            body: Text::from_vec(body),
        })?;
        Ok(())
    }

    pub fn seek_in(&mut self, alloc: Global, folder: &str) -> Result<(), Refusal> {
        self.folders.push(Text::copy_of(alloc, folder.as_bytes())?)?;
        Ok(())
    }
}

/// The tokens of a unit with one space between them, line ends left out.
fn shown(alloc: Global, names: &Names, unit: &PpUnit) -> Result<Vec<u8>, Refusal> {
    let mut out = Vec::new(alloc);
    for token in unit.tokens.as_slice() {
        if token.kind != PpKind::LineEnd {
            if !out.is_empty() {
                out.push(b' ')?;
            }
            out.extend_from_slice(names.spelling(token.spelling).unwrap_or(b"?"))?;
        }
    }
    out.push(b'\n')?;
    Ok(out)
}

/// A line of the tokens of the unit of `a.c`, or the line of its refusal.
pub fn told(alloc: Global, desk: &mut Desk) -> Result<Vec<u8>, Refusal> {
    let mut names = Names::new(alloc);
    let path = Text::copy_of(alloc, b"a.c")?;
    let unit = preprocess(
        alloc,
        &mut desk.files,
        &Options::none(),
        &desk.defines,
        &desk.folders,
        &path,
        &mut names,
    );
    match unit {
        Ok(unit) => shown(alloc, &names, &unit),
        Err(refusal) => {
            let mut out = Vec::new(alloc);
            for part in refusal.line().parts() {
                out.extend_from_slice(part)?;
            }
            Ok(out)
        }
    }
}
