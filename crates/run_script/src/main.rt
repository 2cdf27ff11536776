// Runs a script of calls from standard input, and prints what each answers.
#![tactic(auto)]

use script::{Decoder, run};
use std::io::Read;

// One byte past the longest script: 16,384 words of four bytes.
const MOST: u64 = 65537;

// The script, without the bytes that it was read from.
fn read(rt: &HostRuntime) -> anyhow::Result<Decoder> {
    let mut bytes = Vec::new(rt.alloc());
    rt.stdin().take(MOST).read_to_end(&mut bytes)?;
    Ok(Decoder::read(rt.alloc(), &bytes)?)
}

fn perform(rt: &HostRuntime) -> anyhow::Result<()> {
    let script = read(rt)?;
    for line in run(rt.alloc(), script)? {
        println!(rt; "{line}")?;
    }
    Ok(())
}

fn main(rt: HostRuntime) -> anyhow::Result<()> {
    perform(&rt)
}
