// Two lawful programs, each one small change away from a program that the check refuses. Each makes its path itself, in memory of its own.
#![tactic(auto)]

use carrier::{Carrier, Shelf, Slot};
use path::{Entry, Outcome, Path, WindowStore};
use wire::{Command, Frame, Refusal, Terms, Words};

// A call after a refusal: a send with nothing to send is refused, and the path takes an offer all the same.
pub fn call_after_refusal(terms: Terms) -> (Result<u64, Refusal>, Result<u64, Refusal>, Outcome) {
    let mut out_slots = [Slot::EMPTY; 8];
    let mut back_slots = [Slot::EMPTY; 8];
    let mut kept_places = [Entry::EndMark; 2];
    let mut got_places: [Option<Entry<Command>>; 2] = [None; 2];
    let mut kept = WindowStore::new(&mut kept_places);
    let mut got = WindowStore::new(&mut got_places);
    let out = Shelf::new(&mut out_slots, 3);
    let back = Shelf::new(&mut back_slots, 3);
    let mut path = Path::new(terms, out, back, &mut got);
    let refused = path.send(&kept);
    let offered = path.offer(&mut kept, Command::Stop);
    let (outcome, _, _) = path.end();
    (refused, offered, outcome)
}

// A put by hand on a carrier that the end of its path has returned; answers how many frames it holds then.
pub fn put_after_end(terms: Terms, frame: Frame) -> (Result<(), Refusal>, u32) {
    let mut out_slots = [Slot::EMPTY; 8];
    let mut back_slots = [Slot::EMPTY; 8];
    let mut got_places: [Option<Entry<Command>>; 2] = [None; 2];
    let mut got = WindowStore::new(&mut got_places);
    let out = Shelf::new(&mut out_slots, 3);
    let back = Shelf::new(&mut back_slots, 3);
    let path = Path::new(terms, out, back, &mut got);
    let (_, mut out, _) = path.end();
    let put = out.put(frame);
    (put, out.count())
}

#[cfg(test)]
mod tests {
    use super::*;
    use std::test::Fail;

    fn agreed() -> Result<Terms, Fail> {
        Terms::new(2, 2, 3, 2, 6).map_err(|_| Fail::new("these terms are in range"))
    }

    #[test]
    fn a_call_after_a_refusal(rt: HostRuntime) -> Result<(), Fail> {
        let (refused, offered, outcome) = call_after_refusal(agreed()?);
        assert!(rt; refused.is_err());
        assert!(rt; offered.is_ok());
        let Outcome::Unsure {
            heard,
            sent,
            accepted,
        } = outcome
        else {
            return Err(Fail::new("nothing was heard of"));
        };
        assert!(rt; heard == 0 && sent == 0 && accepted == 1);
        Ok(())
    }

    #[test]
    fn a_put_after_the_end(rt: HostRuntime) -> Result<(), Fail> {
        let frame = Frame {
            head: 0xc000_0000,
            words: Words::ZERO,
        };
        let (put, count) = put_after_end(agreed()?, frame);
        assert!(rt; put.is_ok());
        assert!(rt; count == 1);
        Ok(())
    }
}
