//! Reads a vocabulary, policy sheets and requests from standard input, and prints what the sheets decide on each request and where they differ.
#![tactic(auto)]

use decision::deciding::decide;
use location::Failure;
use std::io::Read;

fn main(rt: HostRuntime) -> anyhow::Result<()> {
    let mut input = Vec::new(rt.alloc());
    rt.stdin().read_to_end(&mut input)?;
    match decide(rt.alloc(), &input) {
        Err(Failure::Refused(refusal)) => println!(rt; "{refusal}")?,
        answer => print!(rt; "{}", answer?)?,
    }
    Ok(())
}
