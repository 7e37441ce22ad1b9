//! The program: real files and streams, and the tool.
#![tactic(auto)]

use c65_driver::{Made, tool};
use c65_io::{HostFiles, HostSink, HostSource};
use std::env;
use std::io::ErrorKind;
use std::process::ExitCode;

fn main(rt: HostRuntime) -> ExitCode {
    let alloc = rt.alloc();
    let args = match env::args(&rt) {
        Ok(args) => args,
        Err(error) if error.kind() == ErrorKind::OutOfMemory => return ExitCode::from(101),
        Err(_) => return ExitCode::from(113),
    };
    let mut words = Vec::new(alloc);
    for word in args.skip(1) {
        let Ok(()) = words.push(word) else {
            return ExitCode::from(101);
        };
    }
    let mut files = HostFiles::new(&rt);
    let mut input = HostSource::new(rt.stdin());
    let mut out = HostSink::new(rt.stdout());
    let mut err = HostSink::new(rt.stderr());
    let mut made = Made::nothing();
    let outcome = tool(
        alloc, &words, &mut files, &mut input, &mut out, &mut err, &mut made,
    );
    ExitCode::from(outcome.code())
}
