// The simulator against the slow interpreter, on made images with fixed seeds.
use crate::images::{Case, made};
use crate::slow::{End, Slow};
use c65_base::Refusal;
use c65_io::{mem_sink, mem_source};
use c65_mach::Image;
use c65_sim::Run;
use std::alloc::Global;

/// How many images are made.
pub const IMAGES: u64 = 3_000;

/// How the images ended, and how many rows and bytes of output there were.
#[derive(Clone, Copy)]
pub struct Tally {
    exits: u64,
    limits: u64,
    hard_stacks: u64,
    illegals: u64,
    rows: u64,
    bytes: u64,
    /// The images that both ways left alike.
    pub agreed: u64,
}

impl Tally {
    fn none() -> Tally {
        Tally {
            exits: 0,
            limits: 0,
            hard_stacks: 0,
            illegals: 0,
            rows: 0,
            bytes: 0,
            agreed: 0,
        }
    }

    /// Whether the images ended in each way more than 100 times.
    pub fn has_each_end(&self) -> bool {
        let ends = [self.exits, self.limits, self.hard_stacks, self.illegals];
        ends.iter().all(|count| *count > 100)
    }

    /// Whether they did more than 300,000 rows and wrote more than 100,000 bytes.
    pub fn is_long(&self) -> bool {
        self.rows > 300_000 && self.bytes > 100_000
    }

    fn add(&mut self, end: End, slow: &Slow) {
        match end {
            End::Exit(_) => self.exits = self.exits.wrapping_add(1),
            End::Limit(_) => self.limits = self.limits.wrapping_add(1),
            End::HardStack(_) => self.hard_stacks = self.hard_stacks.wrapping_add(1),
            End::Illegal(_) => self.illegals = self.illegals.wrapping_add(1),
        }
        self.rows = self.rows.wrapping_add(slow.rows());
        self.bytes = self.bytes.wrapping_add(slow.output().len() as u64);
    }
}

fn end_of(answer: &Result<u8, Refusal>) -> Option<End> {
    match answer {
        Ok(status) => Some(End::Exit(*status)),
        Err(Refusal::Limit { count }) => Some(End::Limit(*count)),
        Err(Refusal::HardStack { pc }) => Some(End::HardStack(*pc)),
        Err(Refusal::Illegal { pc }) => Some(End::Illegal(*pc)),
        Err(_) => None,
    }
}

/// Runs an image both ways, in two calls, and says whether they agree.
fn agrees(alloc: Global, seed: u64, tally: &mut Tally) -> Result<bool, Refusal> {
    let Case {
        file,
        args,
        input: given,
        guard,
        budgets,
    } = made(alloc, seed)?;
    let image = Image::parse(alloc, &file)?;
    let mut run = Run::new(alloc, &image, &args)?;
    let mut input = mem_source(Vec::from_slice(alloc, &given)?, Vec::new(alloc));
    let mut out = mem_sink(alloc, Vec::new(alloc));
    let mut slow = Slow::new(alloc, &file, args, given)?;
    let mut end = End::Limit(0);
    let mut agrees = true;
    for budget in budgets {
        let answer = run.run(&mut input, &mut out, budget, guard);
        end = slow.run(budget, guard)?;
        let same_end = end_of(&answer) == Some(end) && run.count() == slow.rows();
        let same_bytes = out.written() == slow.output() && input.left() == slow.left();
        agrees = agrees && same_end && same_bytes;
    }
    tally.add(end, &slow);
    Ok(agrees)
}

/// Runs all made images both ways.
pub fn run_images(alloc: Global) -> Result<Tally, Refusal> {
    let mut tally = Tally::none();
    for seed in 0..IMAGES {
        if agrees(alloc, seed, &mut tally)? {
            tally.agreed = tally.agreed.wrapping_add(1);
        }
    }
    Ok(tally)
}
