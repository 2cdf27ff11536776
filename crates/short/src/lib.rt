// A layer that lowers the lifetime of the carrier below.
#![tactic(auto)]

ghost use Rattle.std.specs.Prelude.{◌≡◌, min, max, []};
ghost use Rattle.carrier.specs.Carriers.{Put, SameBounds};
ghost use Rattle.walk.specs.Walks.{Young};
ghost use Rattle.short.specs.Shorts.{short_list, short_life, short_room, short_laws};

use carrier::Carrier;
use walk::{count_young, show_young, strike_all, strike_old};
use wire::{Frame, Refusal};

// Means the frames below that are younger than its own lifetime; the others are struck before the next change.
#[derive(Drop)]
pub struct Short<C> {
    below: C,
    // 0 counts as 1; no more is cut, since the lifetime below is the other bound
    own: u32,
}

impl<C: Carrier> Short<C> {
    // Strikes every frame below. A lifetime of 0 is taken as 1.
    pub fn new(mut below: C, lifetime: u32) -> Short<C>
        ensures struck { C.Carrier.list result.below ≡ [] }
        ensures below { SameBounds C.Carrier.life C.Carrier.room below result.below }
        ensures list { short_list C.Carrier result ≡ [] }
        ensures life { short_life C.Carrier result ≡ min (max 1 lifetime) (C.Carrier.life below) }
        ensures room { short_room C.Carrier result ≡ C.Carrier.room below }
    {
        strike_all(&mut below);
        Short {
            below,
            own: lifetime,
        }
    }

    // Gives the carrier below back.
    pub fn into_inner(self) -> C
        ensures { result ≡ self.below }
    {
        self.below
    }

    // Strikes what has reached the layer's lifetime.
    fn settle(&mut self)
        ensures list { C.Carrier.list self.new.below ≡ short_list C.Carrier self.old }
        ensures young { Young (short_life C.Carrier self.old) (C.Carrier.list self.new.below) }
        ensures bounds { SameBounds C.Carrier.life C.Carrier.room self.old.below self.new.below }
        ensures own { self.new.own ≡ self.old.own }
    {
        let life = self.lifetime();
        strike_old(&mut self.below, life);
    }
}

impl<C: Carrier> Carrier for Short<C> {
    ghost list = { short_list C.Carrier };

    ghost life = { short_life C.Carrier };

    ghost room = { short_room C.Carrier };

    ghost laws = { short_laws C.Carrier };

    // In place where it is called, as strike is: else a call costs nearly twice as much where nothing can be too old.
    #[tactic(auto, using(crate::proofs::Shorts::young_put))]
    #[inline]
    fn put(&mut self, frame: Frame) -> Result<(), Refusal>
        ensures put { Put (short_room C.Carrier self.old) frame (short_list C.Carrier self.old) result (short_list C.Carrier self.new) }
        ensures bounds { SameBounds (short_life C.Carrier) (short_room C.Carrier) self.old self.new }
        ensures settled { Young (short_life C.Carrier self.old) (C.Carrier.list self.new.below) }
    {
        self.settle(); // by a put that is refused too
        self.below.put(frame)
    }

    fn count(&self) -> u32 {
        count_young(&self.below, self.lifetime())
    }

    fn show(&self, place: u32) -> Result<(Frame, u32), Refusal> {
        show_young(&self.below, self.lifetime(), place)
    }

    #[tactic(auto, using(crate::proofs::Shorts::young_strike))]
    #[inline]
    fn strike(&mut self, place: u32) -> Result<(), Refusal> {
        self.settle();
        self.below.strike(place)
    }

    #[tactic(auto, using(walk::proofs::Youngs::kept_ticked))]
    fn tick(&mut self) {
        self.settle();
        self.below.tick();
    }

    fn lifetime(&self) -> u32 {
        self.own.max(1).min(self.below.lifetime())
    }

    fn capacity(&self) -> u32 {
        self.below.capacity()
    }
}
