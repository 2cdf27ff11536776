// Explains captured frames: a line of three hexadecimal words in, a line of plain words out.
#![tactic(auto)]

use anyhow::anyhow;
use explain::{Blocks, Listener, explain};
use std::env;
use std::io::{BufRead, BufReader};
use wire::{End, Side};

const USAGE: &str = "usage: inspect [command|reading] [sender N|receiver N]";

fn usage() -> anyhow::Error {
    anyhow!("{USAGE:?}")
}

fn end_at(side: Side, numbers: &str) -> anyhow::Result<End> {
    let numbers = numbers.parse::<u32>().map_err(|_| usage())?;
    Ok(End { side, numbers })
}

// What the arguments ask for, in types of other crates, so by a match and no `FromStr`: which blocks data frames hold, and at which end the frames came in.
fn listener(rt: &HostRuntime) -> anyhow::Result<Listener> {
    let mut blocks = Blocks::Commands;
    let mut side = None;
    let mut end = None;
    for word in env::args(rt)?.skip(1) {
        if end.is_some() {
            return Err(usage());
        }
        match (word.as_str(), side) {
            (numbers, Some(side)) => end = Some(end_at(side, numbers)?),
            ("command", None) => blocks = Blocks::Commands,
            ("reading", None) => blocks = Blocks::Readings,
            ("sender", None) => side = Some(Side::Sender),
            ("receiver", None) => side = Some(Side::Receiver),
            _ => return Err(usage()),
        }
    }
    match (side, end) {
        (Some(_), None) => Err(usage()),
        _ => Ok(Listener { blocks, end }),
    }
}

fn run(rt: &HostRuntime) -> anyhow::Result<()> {
    let listener = listener(rt)?;
    let lines = BufReader::new(rt.alloc(), rt.stdin())?.split(rt.alloc(), b'\n');
    for (place, line) in (1..=u64::MAX).zip(lines) {
        println!(rt; "{}", explain(listener, place, &line?))?;
    }
    Ok(())
}

fn main(rt: HostRuntime) -> anyhow::Result<()> {
    run(&rt)
}
