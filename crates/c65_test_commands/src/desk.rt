// Commands over files and streams in memory.
use crate::device::Device;
use c65_base::Refusal;
use c65_driver::{Made, tool};
use c65_io::{MemSink, mem_files, mem_sink, mem_source};
use std::alloc::Global;

/// What a command is given beside its words: files, the input, and the calls of the input, of the output and of the errors
/// that fail, or 0.
#[derive(Drop)]
pub struct Desk {
    pub device: Device,
    pub input: Vec<u8>,
    pub fail_in: u32,
    pub fail_out: u32,
    pub fail_err: u32,
}

impl Desk {
    /// No files, of which this call fails, unless it is 0.
    pub fn new(alloc: Global, fail: u32) -> Result<Desk, Refusal> {
        Ok(Desk {
            device: Device::new(mem_files(alloc, Vec::from_slice(alloc, &[fail])?)),
            input: Vec::new(alloc),
            fail_in: 0,
            fail_out: 0,
            fail_err: 0,
        })
    }

    /// What a file has; nothing where there is none.
    pub fn held(&self, path: &str) -> &[u8] {
        match self.device.files.get(path.as_bytes()) {
            Some(bytes) => bytes,
            None => &[],
        }
    }

    /// Adds a text, so many times, to what a file has.
    pub fn add(
        &mut self,
        alloc: Global,
        path: &str,
        count: u32,
        text: &[u8],
    ) -> Result<(), Refusal> {
        let mut bytes = Vec::from_slice(alloc, self.held(path))?;
        for _ in 0..count {
            bytes.extend_from_slice(text)?;
        }
        self.device
            .files
            .put(Vec::from_slice(alloc, path.as_bytes())?, bytes)
    }
}

/// What a command left.
#[derive(Drop)]
pub struct Left {
    pub status: u8,
    pub out: MemSink,
    pub err: MemSink,
}

/// The text of a word: `""` is the empty one.
fn word_text(word: &str) -> &str {
    if word == "\"\"" { "" } else { word }
}

/// Does a command.
pub fn perform(alloc: Global, desk: &mut Desk, text: &str) -> Result<Left, Refusal> {
    let mut words = Vec::new(alloc);
    for word in text.split_whitespace() {
        words.push(String::from_str(alloc, word_text(word))?)?;
    }
    let input = Vec::from_slice(alloc, &desk.input)?;
    let mut input = mem_source(input, Vec::from_slice(alloc, &[desk.fail_in])?);
    let mut out = mem_sink(alloc, Vec::from_slice(alloc, &[desk.fail_out])?);
    let mut err = mem_sink(alloc, Vec::from_slice(alloc, &[desk.fail_err])?);
    let mut made = Made::nothing();
    let outcome = tool(
        alloc,
        &words,
        &mut desk.device,
        &mut input,
        &mut out,
        &mut err,
        &mut made,
    );
    Ok(Left {
        status: outcome.code(),
        out,
        err,
    })
}

/// Does a command where the only file has these bytes.
pub fn perform_with(alloc: Global, path: &str, bytes: &[u8], text: &str) -> Result<Left, Refusal> {
    let mut desk = Desk::new(alloc, 0)?;
    desk.add(alloc, path, 1, bytes)?;
    perform(alloc, &mut desk, text)
}
