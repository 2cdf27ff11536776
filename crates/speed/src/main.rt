// Moves blocks and prints a checksum, so that what it costs can be counted.
#![tactic(auto)]

mod block;
mod calls;
mod memory;
mod moving;
mod sum;
mod ticks;

use crate::calls::{PATHS, Upto, WINDOW, one_path};
use crate::memory::Memory;
use crate::moving::{BLOCKS, move_all};
use crate::sum::Sum;
use crate::ticks::hold;
use anyhow::anyhow;
use carrier::{Shelf, Slot};
use path::{Entry, WindowStore};
use std::env;
use std::str::FromStr;
use two_way::TwoWay;
use wire::{Reading, Refusal, Terms};
use word_log::Log;

const USAGE: &str =
    "usage: speed shelves | log | calls shelves|log STEPS | ticks shelf|log|two_way HELD";

const BLANK: Reading = Reading { time: 0, value: 0 };

fn usage() -> anyhow::Error {
    anyhow!("{USAGE:?}")
}

// What carries the frames. Each has an arm of its own where it is used, since the carriers differ in type.
#[derive(Clone, Copy)]
enum Over {
    // a shelf each way
    Shelves,
    // a log outward, and a two-way of two shelves back
    Log,
}

impl FromStr for Over {
    type Err = anyhow::Error;

    fn from_str(word: &str) -> anyhow::Result<Over> {
        match word {
            "shelves" => Ok(Over::Shelves),
            "log" => Ok(Over::Log),
            _ => Err(usage()),
        }
    }
}

// A carrier that ticks.
#[derive(Clone, Copy)]
enum Ticking {
    Shelf,
    Log,
    TwoWay,
}

impl FromStr for Ticking {
    type Err = anyhow::Error;

    fn from_str(word: &str) -> anyhow::Result<Ticking> {
        match word {
            "shelf" => Ok(Ticking::Shelf),
            "log" => Ok(Ticking::Log),
            "two_way" => Ok(Ticking::TwoWay),
            _ => Err(usage()),
        }
    }
}

fn agreed(terms: Result<Terms, Refusal>) -> anyhow::Result<Terms> {
    terms.map_err(|_| anyhow!("the terms are refused"))
}

// A million blocks, and then the book.
fn move_blocks(rt: &HostRuntime, over: Over) -> anyhow::Result<Sum> {
    let terms = agreed(Terms::new(8, 8, 3, 1, 19))?;
    let mut book = vec![in rt.alloc(); BLANK; BLOCKS as usize]?;
    let mut sum = Sum { value: 0 };
    let mut memory = Memory::new();
    match over {
        Over::Shelves => move_all(terms, memory.shelves(), &mut book, &mut sum),
        Over::Log => move_all(terms, memory.log(), &mut book, &mut sum),
    }
    for reading in &book {
        sum.take(u64::from(reading.time));
        sum.take(u64::from(reading.value.cast_unsigned()));
    }
    Ok(sum)
}

// Many short paths with only some of the calls.
fn make_calls(rt: &HostRuntime, over: Over, upto: Upto) -> anyhow::Result<Sum> {
    let terms = agreed(Terms::new(WINDOW, WINDOW, 3, 1, 2 * WINDOW + 3))?;
    let mut kept_places = [Entry::EndMark; WINDOW as usize];
    let mut got_places = [None; WINDOW as usize];
    let mut book = vec![in rt.alloc(); BLANK; WINDOW as usize]?;
    let mut kept = WindowStore::new(&mut kept_places);
    let mut got = WindowStore::new(&mut got_places);
    let mut sum = Sum { value: 0 };
    for _ in 0..PATHS {
        let mut memory = Memory::new();
        match over {
            Over::Shelves => {
                let ways = memory.shelves();
                one_path(terms, ways, &mut kept, &mut got, &mut book, upto, &mut sum);
            }
            Over::Log => {
                let ways = memory.log();
                one_path(terms, ways, &mut kept, &mut got, &mut book, upto, &mut sum);
            }
        }
    }
    Ok(sum)
}

// A carrier that holds many frames, and ticks.
fn make_ticks(rt: &HostRuntime, kind: Ticking, held: u16) -> anyhow::Result<Sum> {
    let mut slots = vec![in rt.alloc(); Slot::EMPTY; 4096]?;
    let mut near = vec![in rt.alloc(); Slot::EMPTY; 2048]?;
    let mut far = vec![in rt.alloc(); Slot::EMPTY; 2048]?;
    let mut words = vec![in rt.alloc(); 0u32; 16384]?;
    let mut sum = Sum { value: 0 };
    match kind {
        Ticking::Shelf => hold(Shelf::new(&mut slots, 65535), held, &mut sum),
        Ticking::Log => hold(Log::new(&mut words, 65535), held, &mut sum),
        Ticking::TwoWay => {
            let first = Shelf::new(&mut near, 65535);
            hold(
                TwoWay::new(first, Shelf::new(&mut far, 65535)),
                held,
                &mut sum,
            );
        }
    }
    Ok(sum)
}

// How many frames a carrier holds: no more than it can.
fn held(word: &str) -> anyhow::Result<u16> {
    match word.parse() {
        Ok(held) if held <= 4096 => Ok(held),
        _ => Err(usage()),
    }
}

// What the arguments ask for.
fn run(rt: &HostRuntime) -> anyhow::Result<()> {
    let mut words = env::args(rt)?.skip(1);
    let sum = match (words.next(), words.next(), words.next(), words.next()) {
        (Some(job), None, None, None) => move_blocks(rt, job.parse()?)?,
        (Some(job), Some(kind), Some(count), None) => match job.as_str() {
            "calls" => make_calls(rt, kind.parse()?, count.parse()?)?,
            "ticks" => make_ticks(rt, kind.parse()?, held(&count)?)?,
            _ => return Err(usage()),
        },
        _ => return Err(usage()),
    };
    println!(rt; "{}", sum.value)?;
    Ok(())
}

fn main(rt: HostRuntime) -> anyhow::Result<()> {
    run(&rt)
}
