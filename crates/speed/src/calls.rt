// Paths on which only some calls of each block are made.
use crate::block::block;
use crate::sum::Sum;
use crate::usage;
use carrier::Carrier;
use path::{Entry, Path, WindowStore};
use std::str::FromStr;
use wire::{Reading, Terms};

pub const PATHS: u32 = 25;

// The last kind of call that is made.
#[derive(Clone, Copy, PartialEq, PartialOrd)]
pub enum Upto {
    Nothing,
    Offer,
    Tick,
    Send,
    Arrive,
    Deliver,
    Acknowledge,
    Hear,
    Resend,
}

impl FromStr for Upto {
    type Err = anyhow::Error;

    fn from_str(word: &str) -> anyhow::Result<Upto> {
        match word.parse::<u16>() {
            Ok(0) => Ok(Upto::Nothing),
            Ok(1) => Ok(Upto::Offer),
            Ok(2) => Ok(Upto::Tick),
            Ok(3) => Ok(Upto::Send),
            Ok(4) => Ok(Upto::Arrive),
            Ok(5) => Ok(Upto::Deliver),
            Ok(6) => Ok(Upto::Acknowledge),
            Ok(7) => Ok(Upto::Hear),
            Ok(8) => Ok(Upto::Resend),
            _ => Err(usage()),
        }
    }
}

// As many blocks as both windows hold, so that no call needs another one after it.
pub const WINDOW: u32 = 4096;

// The sender's part of block i and its arrival. No closures, and no struct of what is lent: what stands here is what is counted.
fn forth<O: Carrier, K: Carrier>(
    path: &mut Path<O, K>,
    kept: &mut WindowStore<Entry<Reading>>,
    got: &mut WindowStore<Option<Entry<Reading>>>,
    upto: Upto,
    i: u32,
    sum: &mut Sum,
) {
    if upto >= Upto::Offer {
        sum.answer(path.offer(kept, block(i)).map(Some));
    }
    if upto >= Upto::Tick {
        sum.answer(path.tick().map(|()| None));
    }
    if upto >= Upto::Send {
        sum.answer(path.send(kept).map(Some));
    }
    if upto >= Upto::Arrive {
        sum.answer(path.arrive(0, got));
    }
    if upto >= Upto::Send {
        sum.answer(path.lose_outward(0).map(|()| None));
    }
    if upto >= Upto::Resend {
        sum.answer(path.resend(kept, 0).map(Some));
        sum.answer(path.lose_outward(0).map(|()| None));
    }
}

// The receiver's part, and what the sender hears of it.
fn back<O: Carrier, K: Carrier>(
    path: &mut Path<O, K>,
    got: &mut WindowStore<Option<Entry<Reading>>>,
    book: &mut [Reading],
    upto: Upto,
    sum: &mut Sum,
) {
    if upto >= Upto::Deliver {
        sum.answer(path.deliver(got, book).map(Some));
    }
    if upto >= Upto::Acknowledge {
        sum.answer(path.acknowledge().map(Some));
    }
    if upto >= Upto::Hear {
        sum.answer(path.hear(0).map(Some));
    }
    if upto >= Upto::Acknowledge {
        sum.answer(path.lose_back(0).map(|()| None));
    }
}

// One path over two carriers: the calls up to one kind for every block.
pub fn one_path<O: Carrier + Drop, K: Carrier + Drop>(
    terms: Terms,
    ways: (O, K),
    kept: &mut WindowStore<Entry<Reading>>,
    got: &mut WindowStore<Option<Entry<Reading>>>,
    book: &mut [Reading],
    upto: Upto,
    sum: &mut Sum,
) {
    let (out, way_back) = ways;
    let mut path = Path::new(terms, out, way_back, got);
    for i in 0..WINDOW {
        forth(&mut path, kept, got, upto, i, sum);
        back(&mut path, got, book, upto, sum);
    }
    let (outcome, _, _) = path.end();
    sum.outcome(outcome);
}
