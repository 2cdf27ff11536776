// A million blocks through one path, with late frames, losses and repeats.
use crate::block::block;
use crate::sum::Sum;
use carrier::Carrier;
use path::{Entry, Path, WindowStore};
use wire::{Reading, Terms};

pub const BLOCKS: u32 = 1_000_000;

// The next block is sent; one in eight is sent again after a loss.
fn send<O: Carrier, K: Carrier>(
    path: &mut Path<O, K>,
    kept: &mut WindowStore<Entry<Reading>>,
    i: u32,
    sum: &mut Sum,
) {
    sum.answer(path.offer(kept, block(i)).map(Some));
    sum.answer(path.send(kept).map(Some));
    if i % 8 == 5 {
        sum.answer(path.lose_outward(0).map(|()| None));
        sum.answer(path.resend(kept, 0).map(Some));
    }
}

// Everything in the air arrives, late frames too, and one entry is delivered and acknowledged.
fn receive<O: Carrier, K: Carrier>(
    path: &mut Path<O, K>,
    got: &mut WindowStore<Option<Entry<Reading>>>,
    book: &mut [Reading],
    sum: &mut Sum,
) {
    for place in 0..3 {
        sum.answer(path.arrive(place, got));
    }
    sum.answer(path.deliver(got, book).map(Some));
    sum.answer(path.acknowledge().map(Some));
}

// Every acknowledgement in the air is heard, late ones too.
fn hear<O: Carrier, K: Carrier>(path: &mut Path<O, K>, sum: &mut Sum) {
    for place in 0..3 {
        sum.answer(path.hear(place).map(Some));
    }
}

// Moves every block, seals and ends.
pub fn move_all<O: Carrier + Drop, K: Carrier + Drop>(
    terms: Terms,
    ways: (O, K),
    book: &mut [Reading],
    sum: &mut Sum,
) {
    let (out, back) = ways;
    let mut kept_places = [Entry::EndMark; 8];
    let mut got_places = [None; 8];
    let mut kept = WindowStore::new(&mut kept_places);
    let mut got = WindowStore::new(&mut got_places);
    let mut path = Path::new(terms, out, back, &mut got);
    for i in 0..BLOCKS {
        send(&mut path, &mut kept, i, sum);
        receive(&mut path, &mut got, book, sum);
        if i % 8 == 2 {
            sum.answer(path.lose_back(0).map(|()| None));
        }
        hear(&mut path, sum);
        sum.answer(path.tick().map(|()| None));
    }
    sum.answer(path.seal(&mut kept).map(Some));
    sum.answer(path.send(&kept).map(Some));
    receive(&mut path, &mut got, book, sum);
    hear(&mut path, sum);
    let (outcome, _, _) = path.end();
    sum.outcome(outcome);
}
