//! Reads a vocabulary and requests from standard input, and prints where each request lies in the grid.
#![tactic(auto)]

use location::Failure;
use location::finding::locate;
use std::io::Read;

fn main(rt: HostRuntime) -> anyhow::Result<()> {
    let mut input = Vec::new(rt.alloc());
    rt.stdin().read_to_end(&mut input)?;
    match locate(rt.alloc(), &input) {
        Err(Failure::Refused(refusal)) => println!(rt; "{refusal}")?,
        answer => {
            for location in answer?.iter() {
                println!(rt; "{location}")?;
            }
        }
    }
    Ok(())
}
