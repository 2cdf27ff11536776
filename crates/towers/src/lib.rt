// Carriers in use: one function for every carrier, and towers of layers made, used and taken apart.
#![tactic(auto)]

ghost use Rattle.std.specs.Prelude.{◌≡◌, ◌+◌, min, length};

use carrier::Carrier;
use wire::Frame;

mod cable;

pub use cable::Cable;

// Puts a frame if there is room, and answers how many frames are then held.
pub fn put_one<C: Carrier>(carrier: &mut C, frame: Frame) -> u32
    ensures { result ≡ min (length (C.Carrier.list carrier.old) + 1) (C.Carrier.room carrier.old) }
{
    let _ = carrier.put(frame);
    carrier.count()
}

#[cfg(test)]
mod tests {
    use super::*;
    use carrier::{Shelf, Slot};
    use quota::Quota;
    use short::Short;
    use two_way::{TwoWay, Way};
    use wire::{Refusal, Words};
    use word_log::Log;

    // The log's tests have the next two as well: shared, they would be public for tests alone.
    fn frame(head: u32) -> Frame {
        Frame {
            head,
            words: Words::ZERO,
        }
    }

    // What a place shows: the head of its frame, and its age.
    fn at<C: Carrier>(carrier: &C, place: u32) -> Option<(u32, u32)> {
        carrier
            .show(place)
            .ok()
            .map(|(frame, age)| (frame.head, age))
    }

    // The number of a refusal, and 0 for none: numbers are what is expected here.
    fn number(res: Result<(), Refusal>) -> u8 {
        res.err().map_or(0, Refusal::number)
    }

    #[test]
    fn one_function_runs_over_every_carrier(rt: HostRuntime) {
        let mut slots = [Slot::EMPTY; 2];
        let mut shelf = Shelf::new(&mut slots, 5);
        assert_eq!(rt; put_one(&mut shelf, frame(1)), 1);
        let mut words = [0u32; 7];
        let mut log = Log::new(&mut words, 5);
        assert_eq!(rt; put_one(&mut log, frame(2)), 1);
        assert_eq!(rt; put_one(&mut log, frame(3)), 1);
        let joined = TwoWay::new(Short::new(shelf, 3), log);
        let mut tower = Quota::new(joined, 2);
        assert_eq!(rt; put_one(&mut tower, frame(4)), 1);
        assert_eq!(rt; put_one(&mut tower, frame(5)), 2);
        assert_eq!(rt; put_one(&mut tower, frame(6)), 2);
        let mut cable = Cable::new();
        assert_eq!(rt; put_one(&mut cable, frame(7)), 1);
        assert_eq!(rt; put_one(&mut cable, frame(8)), 1);
    }

    #[test]
    fn a_tower_is_made_used_and_taken_apart(rt: HostRuntime) {
        let mut slots = [Slot::EMPTY; 1];
        let mut words = [0u32; 8];
        let short = Short::new(Shelf::new(&mut slots, 9), 4);
        let joined = TwoWay::new(short, Log::new(&mut words, 3));
        let mut tower = Quota::new(joined, 2);
        assert_eq!(rt; tower.lifetime(), 3);
        assert_eq!(rt; tower.capacity(), 2);
        assert_eq!(rt; number(tower.put(frame(1))), 0);
        tower.tick();
        assert_eq!(rt; number(tower.put(frame(2))), 0);
        assert_eq!(rt; number(tower.put(frame(3))), 14);
        assert_eq!(rt; at(&tower, 0), Some((1, 1)));
        assert_eq!(rt; at(&tower, 1), Some((2, 0)));
        assert_eq!(rt; number(tower.strike(2)), 15);
        let (mut short, log) = tower.into_inner().into_parts();
        assert_eq!(rt; at(&log, 0), Some((2, 0)));
        short.tick();
        short.tick();
        assert_eq!(rt; at(&short, 0), Some((1, 3)));
        short.tick();
        assert_eq!(rt; short.count(), 0);
        let shelf = short.into_inner();
        assert_eq!(rt; at(&shelf, 0), Some((1, 4)));
    }

    #[test]
    fn two_ways_fill_the_first_before_the_second(rt: HostRuntime) {
        let mut slots = [Slot::EMPTY; 1];
        let mut words = [0u32; 4];
        let mut joined = TwoWay::new(Shelf::new(&mut slots, 9), Log::new(&mut words, 9));
        assert!(rt; matches!(joined.put_way(frame(1)), Ok(Way::First)));
        assert!(rt; matches!(joined.put_way(frame(2)), Ok(Way::Second)));
        assert!(rt; joined.put_way(frame(3)).is_err());
        assert_eq!(rt; number(joined.strike(0)), 0);
        assert_eq!(rt; at(&joined, 0), Some((2, 0)));
        assert!(rt; matches!(joined.put_way(frame(4)), Ok(Way::First)));
        assert_eq!(rt; at(&joined, 1), Some((2, 0)));
    }

    #[test]
    fn no_making_is_refused(rt: HostRuntime) {
        let mut slots = [Slot::EMPTY; 0];
        let mut shelf = Shelf::new(&mut slots, 0);
        assert_eq!(rt; shelf.lifetime(), 1);
        assert_eq!(rt; shelf.capacity(), 0);
        assert_eq!(rt; number(shelf.put(frame(1))), 14);
        let mut words = [0u32; 3];
        let log = Log::new(&mut words, 65536);
        assert_eq!(rt; log.lifetime(), 65535);
        assert_eq!(rt; log.capacity(), 0);
        let short = Short::new(log, 0);
        assert_eq!(rt; short.lifetime(), 1);
    }
}
