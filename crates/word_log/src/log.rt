// The log: a carrier that keeps four words a frame in a lent slice, the last the frame's departure on a tick count that comes round.
ghost use Rattle.std.specs.Prelude.{◌≡◌, ◌/◌, min, max, [], length};
ghost use Rattle.carrier.specs.Lifetimes.{ticks_of};
ghost use Rattle.word_log.specs.Logs.{elapsed, next, played, quads, stays, log_list, log_life, log_room, log_laws};

use carrier::{Carrier, Lifetime, Records, Stays};
use wire::{Frame, Refusal, Words};

// The four words of a frame: its own three and its departure, the tick count at which it was put.
type Quad = [u32; 4];

// The tick count, which comes round at 2^32, and how long a frame lives on it.
#[derive(Clone, Copy)]
struct Now {
    clock: u32,
    life: Lifetime,
}

impl Now {
    // The ticks since a departure.
    fn elapsed(self, departure: u32) -> u32
        ensures { result ≡ elapsed self.clock departure }
    {
        self.clock.wrapping_sub(departure)
    }

    // The words of a frame that is put at this tick.
    fn stamp(self, frame: Frame) -> Quad
        ensures { played self.clock (ticks_of self.life) result ≡ (frame, 0) }
    {
        let Words { first, second } = frame.words;
        [frame.head, first, second, self.clock]
    }

    // The frame and its age, kept below the lifetime.
    fn shown(self, quad: Quad) -> (Frame, u32)
        ensures { result ≡ played self.clock (ticks_of self.life) quad }
    {
        let [head, first, second, departure] = quad;
        let words = Words { first, second };
        let age = self.life.cut(self.elapsed(departure));
        (Frame { head, words }, age)
    }

    // One tick later.
    fn next(self) -> Now
        ensures { result ≡ next self }
    {
        Now {
            clock: self.clock.wrapping_add(1),
            ..self
        }
    }
}

impl Stays<Quad> for Now {
    ghost kept = { λ now quad. stays now.clock (ticks_of now.life) quad };

    // One tick on, the age is still below the lifetime.
    fn stays(&self, quad: &Quad) -> bool {
        let [_, _, _, departure] = *quad;
        self.elapsed(departure) < self.life.ticks() - 1
    }
}

// It means something at every value: no more frames than fit, and no age that reaches the lifetime.
#[derive(Drop)]
pub struct Log<'a> {
    quads: Records<'a, Quad>,
    now: Now,
}

impl<'a> Log<'a> {
    // An empty log. Of the slice it uses 4,096 frames of four words at most; a lifetime outside 1 to 65,535 is taken as the nearer end.
    #[tactic(auto, using(crate::proofs::Quads::chunks_quads))]
    pub fn new(words: &'a mut [u32], lifetime: u32) -> Log<'a>
        ensures list { log_list result ≡ [] }
        ensures life { log_life result ≡ min 65535 (max 1 lifetime) }
        ensures room { log_room result ≡ min 4096 (length words.old / 4) }
        ensures quads { result.quads.lent.now ≡ quads words.old }
    {
        let (quads, _) = words.as_chunks_mut::<4>();
        Log {
            quads: Records::new(quads),
            now: Now {
                clock: 0,
                life: Lifetime::new(lifetime),
            },
        }
    }
}

// Apart from the shelf's, though alike: of one implementation for both, no wrong version of a log's call could stand in this crate.
impl Carrier for Log<'_> {
    ghost list = { log_list };

    ghost life = { log_life };

    ghost room = { log_room };

    ghost laws = { log_laws };

    #[tactic(auto, using(carrier::proofs::Held::held_put))]
    fn put(&mut self, frame: Frame) -> Result<(), Refusal> {
        self.quads.push(self.now.stamp(frame))
    }

    fn count(&self) -> u32 {
        self.quads.count()
    }

    fn show(&self, place: u32) -> Result<(Frame, u32), Refusal> {
        let quad = self.quads.get(place)?;
        Ok(self.now.shown(quad))
    }

    #[tactic(auto, using(carrier::proofs::Held::held_strike))]
    fn strike(&mut self, place: u32) -> Result<(), Refusal> {
        self.quads.remove(place)
    }

    fn tick(&mut self) {
        // copied out: where it lies, it would be read again for each frame
        let now = self.now;
        self.quads.retain(&now);
        self.now = now.next();
    }

    fn lifetime(&self) -> u32 {
        self.now.life.ticks()
    }

    fn capacity(&self) -> u32 {
        self.quads.capacity()
    }
}

#[cfg(test)]
mod tests {
    use super::*;

    const LAST: u32 = 0xffff_ffff;

    // The towers' tests have such helpers as well: shared, they would be public for tests alone.
    fn frame(head: u32) -> Frame {
        Frame {
            head,
            words: Words {
                first: 2,
                second: 3,
            },
        }
    }

    // An empty log whose tick count begins at `clock`.
    fn starting(words: &mut [u32], lifetime: u32, clock: u32) -> Log<'_> {
        let mut log = Log::new(words, lifetime);
        log.now.clock = clock;
        log
    }

    // What a place shows: the head of its frame, and its age.
    fn at(log: &Log<'_>, place: u32) -> Option<(u32, u32)> {
        log.show(place).ok().map(|(frame, age)| (frame.head, age))
    }

    #[test]
    fn ages_run_on_where_the_count_comes_round(rt: HostRuntime) {
        let mut words = [0u32; 9];
        let mut log = starting(&mut words, 4, LAST - 1);
        assert!(rt; log.put(frame(7)).is_ok());
        log.tick();
        assert!(rt; log.put(frame(8)).is_ok());
        assert!(rt; log.put(frame(9)).is_err());
        log.tick();
        assert_eq!(rt; log.now.clock, 0);
        assert_eq!(rt; at(&log, 0), Some((7, 2)));
        assert_eq!(rt; at(&log, 1), Some((8, 1)));
        log.tick();
        assert_eq!(rt; at(&log, 0), Some((7, 3)));
        log.tick();
        assert_eq!(rt; log.count(), 1);
        assert_eq!(rt; at(&log, 0), Some((8, 3)));
        log.tick();
        assert_eq!(rt; log.count(), 0);
    }
}
