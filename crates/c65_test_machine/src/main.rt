//! The simulator and the machine against a second, slow interpreter: 3,000 images made from fixed seeds, each byte as an
//! instruction in 32 made states, and all sums and differences in decimal mode; and the lines of the table `rows`, worked by
//! hand.
#![tactic(auto)]

mod fuzz;
mod images;
mod single;
mod slow;
mod worked;

use crate::fuzz::{IMAGES, run_images};
use crate::single::{count_decimals, count_rows};
use crate::worked::count_worked;
use std::fs;

fn main(rt: HostRuntime) -> Result<(), anyhow::Error> {
    let alloc = rt.alloc();
    let tally = run_images(alloc)?;
    println!(rt; "images that agree: {} of {IMAGES}", tally.agreed)?;
    println!(rt; "each end more than 100 times: {}", tally.has_each_end())?;
    println!(rt;
        "more than 300000 rows and 100000 bytes: {}",
        tally.is_long()
    )?;
    println!(rt; "single rows that agree: {} of 8192", count_rows(alloc)?)?;
    println!(rt;
        "decimal rows that agree: {} of 262144",
        count_decimals(alloc)?
    )?;
    let table = fs::read_to_string(&rt, "rows")?;
    let (right, lines) = count_worked(alloc, &table)?;
    println!(rt; "rows by hand that agree: {right} of {lines}")?;
    Ok(())
}
