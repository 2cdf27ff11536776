// A control room sends three orders to a pumping station over a bad line: a frame is lost, one comes late, one comes twice.
#![tactic(auto)]

mod text;

use crate::text::{Ending, Line, Order};
use carrier::{Carrier, Shelf, Slot};
use history::make_call;
use path::{Entry, Path, WindowStore};
use promise::{Call, Turn};
use std::io;
use wire::{Command, Terms};

const SCRIPT: [Call<Command>; 35] = [
    Call::Offer(Command::Stop),
    Call::Send,
    Call::LoseOutward(0),
    Call::Offer(Command::Start { channel: 4 }),
    Call::Send,
    Call::Tick,
    Call::Tick,
    Call::Send,
    Call::Arrive(0),
    Call::Deliver,
    Call::Resend(0),
    Call::Arrive(1),
    Call::Arrive(0),
    Call::Deliver,
    Call::Deliver,
    Call::Acknowledge,
    Call::LoseBack(0),
    Call::Tick,
    Call::Resend(1),
    Call::Arrive(2),
    Call::Acknowledge,
    Call::Hear(0),
    Call::Offer(Command::Set {
        channel: 4,
        level: 75,
    }),
    Call::Seal,
    Call::Tick,
    Call::Send,
    Call::Tick,
    Call::Tick,
    Call::Arrive(0),
    Call::Send,
    Call::Arrive(1),
    Call::Deliver,
    Call::Deliver,
    Call::Acknowledge,
    Call::Hear(0),
];

// Plays the script over two shelves, and says of each call what came of it.
fn run(rt: &HostRuntime, terms: Terms, book: &mut [Command]) -> io::Result<()> {
    let mut out_slots = [Slot::EMPTY; 8];
    let mut back_slots = [Slot::EMPTY; 8];
    let mut kept_places = [Entry::EndMark; 2];
    let mut got_places = [None; 2];
    let mut kept = WindowStore::new(&mut kept_places);
    let mut got = WindowStore::new(&mut got_places);
    let out = Shelf::new(&mut out_slots, terms.lifetime());
    let back = Shelf::new(&mut back_slots, terms.lifetime());
    let mut path = Path::new(terms, out, back, &mut got);
    for call in SCRIPT {
        let answer = make_call(&mut path, &mut kept, &mut got, book, call);
        println!(rt; "{}", Line(Turn { call, answer }))?;
    }
    let (outcome, _, _) = path.end();
    println!(rt; "the end: {}", Ending(outcome))
}

fn read_out(rt: &HostRuntime, book: &[Command]) -> io::Result<()> {
    for command in book {
        println!(rt; "in the book: {}", Order(*command))?;
    }
    Ok(())
}

fn main(rt: HostRuntime) -> io::Result<()> {
    let mut book = [Command::Stop; 3];
    match Terms::new(2, 2, 3, 2, 6) {
        Ok(terms) => {
            run(&rt, terms, &mut book)?;
            read_out(&rt, &book)
        }
        Err(refusal) => println!(rt; "terms refused: {}", refusal.number()),
    }
}
