//! Does `c65 go` for each file that is named, and prints its name, what the program writes, and what the tool answers. Then it
//! does so under `-Oirs` for files that are not long, and says where that answers otherwise.
#![tactic(auto)]

use c65_base::Refusal;
use c65_driver::{Made, tool};
use c65_io::{Files, HostFiles, HostSink, MemSink, mem_sink, mem_source, write_all};
use std::alloc::Global;
use std::{env, fs};

/// The longest file that is put through the optimiser, so that all files together take seconds.
const LONGEST: usize = 8192;

/// What a command left.
#[derive(Drop)]
struct Left {
    status: u8,
    out: MemSink,
    err: MemSink,
}

impl Left {
    /// Whether another command left the same.
    fn is(&self, other: &Left) -> bool {
        self.status == other.status
            && self.out.written() == other.out.written()
            && self.err.written() == other.err.written()
    }
}

/// `go` with an option, if one is given, for a file of the host.
fn go<F: Files>(
    alloc: Global,
    files: &mut F,
    option: Option<&str>,
    path: &str,
) -> Result<Left, Refusal> {
    let mut words = Vec::new(alloc);
    words.push(String::from_str(alloc, "go")?)?;
    if let Some(option) = option {
        words.push(String::from_str(alloc, option)?)?;
    }
    words.push(String::from_str(alloc, path)?)?;
    let mut input = mem_source(Vec::new(alloc), Vec::new(alloc));
    let mut out = mem_sink(alloc, Vec::new(alloc));
    let mut err = mem_sink(alloc, Vec::new(alloc));
    let mut made = Made::nothing();
    let outcome = tool(
        alloc, &words, files, &mut input, &mut out, &mut err, &mut made,
    );
    Ok(Left {
        status: outcome.code(),
        out,
        err,
    })
}

fn main(rt: HostRuntime) -> Result<(), anyhow::Error> {
    let alloc = rt.alloc();
    let mut files = HostFiles::new(&rt);
    for path in env::args(&rt)?.skip(1) {
        println!(rt; "== {path}")?;
        let left = go(alloc, &mut files, None, &path)?;
        let mut console = HostSink::new(rt.stdout());
        let _ = write_all(&mut console, left.out.written());
        let _ = write_all(&mut console, left.err.written());
        println!(rt; "status {}", left.status)?;
        let is_short = match fs::read(&rt, path.as_str()) {
            Ok(text) => text.len() <= LONGEST,
            Err(_) => false,
        };
        if is_short && !go(alloc, &mut files, Some("-Oirs"), &path)?.is(&left) {
            println!(rt; "-Oirs: otherwise")?;
        }
    }
    Ok(())
}
