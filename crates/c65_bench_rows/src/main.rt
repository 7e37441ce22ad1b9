//! Counts the rows of an image's run: `c65_bench_rows IMAGE [ARG ..]` runs it with what stands on standard input, writes
//! nothing of the program's own, and prints how many rows it did until it ended, the last one counted.
#![tactic(auto)]

use c65_base::Text;
use c65_io::{HostSink, HostSource};
use c65_mach::Image;
use c65_sim::{Budget, Run};
use std::{env, fs, io};

fn main(rt: HostRuntime) -> Result<(), anyhow::Error> {
    let alloc = rt.alloc();
    let mut words = Vec::new(alloc);
    let mut image = None;
    for word in env::args(&rt)?.skip(1) {
        if image.is_none() {
            let bytes = fs::read(&rt, word.as_str())?;
            image = Some(Image::parse(alloc, &bytes)?);
        }
        words.push(Text::copy_of(alloc, word.as_bytes())?)?;
    }
    if let Some(image) = &image {
        let mut run = Run::new(alloc, image, &words)?;
        let mut input = HostSource::new(rt.stdin());
        let mut nowhere = HostSink::new(io::sink());
        run.run(
            &mut input,
            &mut nowhere,
            Budget::Instructions(u64::MAX),
            false,
        )?;
        println!(rt; "{} rows", run.count())?;
    }
    Ok(())
}
