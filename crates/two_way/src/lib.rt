// Two carriers joined: the list of the first, then that of the second.
#![tactic(auto)]

ghost use Rattle.std.specs.Prelude.{◌≡◌, ◌+◌, ◌≤◌, min, [], length};
ghost use Rattle.carrier.specs.Carriers.{SameBounds};
ghost use Rattle.walk.specs.Walks.{Young};
ghost use Rattle.two_way.specs.TwoWays.{PutWay, SameBoth, first_list, second_list, two_list, two_life, two_room, two_laws};

use carrier::Carrier;
use walk::{count_young, show_young, strike_all, strike_from, strike_old};
use wire::{Frame, Refusal};

// The highest capacity of a carrier.
const MOST: u32 = 65535;

// Which of two carriers took a frame.
#[derive(Clone, Copy)]
pub enum Way {
    First,
    Second,
}

// Means the frames of both that are younger than the lower lifetime, 65,535 at most; the others are struck before the next change.
#[derive(Drop)]
pub struct TwoWay<A, B> {
    first: A,
    second: B,
}

impl<A: Carrier, B: Carrier> TwoWay<A, B> {
    // Strikes every frame of both.
    pub fn new(mut first: A, mut second: B) -> TwoWay<A, B>
        ensures struck { (A.Carrier.list result.first ≡ []) × (B.Carrier.list result.second ≡ []) }
        ensures first { SameBounds A.Carrier.life A.Carrier.room first result.first }
        ensures second { SameBounds B.Carrier.life B.Carrier.room second result.second }
        ensures list { two_list A.Carrier B.Carrier result ≡ [] }
        ensures life { two_life A.Carrier B.Carrier result ≡ min (A.Carrier.life first) (B.Carrier.life second) }
        ensures room { two_room A.Carrier B.Carrier result ≡ min 65535 (A.Carrier.room first + B.Carrier.room second) }
    {
        strike_all(&mut first);
        strike_all(&mut second);
        TwoWay { first, second }
    }

    // Gives both carriers back.
    pub fn into_parts(self) -> (A, B)
        ensures { result ≡ (self.first, self.second) }
    {
        (self.first, self.second)
    }

    // Strikes what stands past the bounds of the two together.
    fn settle(&mut self)
        ensures first { A.Carrier.list self.new.first ≡ first_list A.Carrier B.Carrier self.old }
        ensures second { B.Carrier.list self.new.second ≡ second_list A.Carrier B.Carrier self.old }
        ensures young_first { Young (two_life A.Carrier B.Carrier self.old) (A.Carrier.list self.new.first) }
        ensures young_second { Young (two_life A.Carrier B.Carrier self.old) (B.Carrier.list self.new.second) }
        ensures within { length (A.Carrier.list self.new.first) + length (B.Carrier.list self.new.second) ≤ 65535 }
        ensures bounds { SameBoth A.Carrier B.Carrier self.old self.new }
    {
        let life = self.lifetime();
        strike_old(&mut self.first, life);
        strike_old(&mut self.second, life);
        let left = MOST - self.first.count();
        strike_from(&mut self.second, left);
    }

    // A put that says which of the two took the frame: the first while it has room, and else the second.
    pub fn put_way(&mut self, frame: Frame) -> Result<Way, Refusal>
        ensures way { PutWay A.Carrier B.Carrier frame self.old result self.new }
        ensures bounds { SameBoth A.Carrier B.Carrier self.old self.new }
    {
        self.settle();
        if self.first.count() + self.second.count() >= MOST {
            return Err(Refusal::CarrierFull);
        }
        if self.first.count() < self.first.capacity() {
            self.first.put(frame)?;
            Ok(Way::First)
        } else {
            self.second.put(frame)?;
            Ok(Way::Second)
        }
    }
}

impl<A: Carrier, B: Carrier> Carrier for TwoWay<A, B> {
    ghost list = { two_list A.Carrier B.Carrier };

    ghost life = { two_life A.Carrier B.Carrier };

    ghost room = { two_room A.Carrier B.Carrier };

    ghost laws = { two_laws A.Carrier B.Carrier };

    fn put(&mut self, frame: Frame) -> Result<(), Refusal> {
        self.put_way(frame).map(|_| ())
    }

    #[tactic(auto, using(walk::proofs::Youngs::few_young, crate::proofs::TwoWays::length_joint))]
    fn count(&self) -> u32 {
        let life = self.lifetime();
        let both = count_young(&self.first, life) + count_young(&self.second, life);
        both.min(MOST)
    }

    fn show(&self, place: u32) -> Result<(Frame, u32), Refusal> {
        let life = self.lifetime();
        let first = count_young(&self.first, life);
        if place < first {
            show_young(&self.first, life, place)
        } else if place < MOST {
            show_young(&self.second, life, place - first)
        } else {
            Err(Refusal::NoSuchPlace)
        }
    }

    #[tactic(auto, using(crate::proofs::TwoWays::strike_first, crate::proofs::TwoWays::strike_second))]
    fn strike(&mut self, place: u32) -> Result<(), Refusal> {
        self.settle();
        let first = self.first.count();
        if place < first {
            self.first.strike(place)
        } else {
            self.second.strike(place - first)
        }
    }

    #[tactic(auto, using(crate::proofs::TwoWays::tick_both))]
    fn tick(&mut self) {
        self.settle();
        self.first.tick();
        self.second.tick();
    }

    fn lifetime(&self) -> u32 {
        self.first.lifetime().min(self.second.lifetime())
    }

    fn capacity(&self) -> u32 {
        (self.first.capacity() + self.second.capacity()).min(MOST)
    }
}
