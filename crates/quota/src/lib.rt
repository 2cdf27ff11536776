// A layer that lowers the capacity of the carrier below.
#![tactic(auto)]

ghost use Rattle.std.specs.Prelude.{◌≡◌, ◌≤◌, min, [], length};
ghost use Rattle.carrier.specs.Carriers.{Put, SameBounds};
ghost use Rattle.quota.specs.Quotas.{quota_list, quota_life, quota_room, quota_laws};

use carrier::Carrier;
use walk::{strike_all, strike_from};
use wire::{Frame, Refusal};

// Means the first `limit` frames of the carrier below; those behind them are struck before the next change.
#[derive(Drop)]
pub struct Quota<C> {
    below: C,
    limit: u32,
}

impl<C: Carrier> Quota<C> {
    // Strikes every frame below.
    pub fn new(mut below: C, limit: u32) -> Quota<C>
        ensures struck { C.Carrier.list result.below ≡ [] }
        ensures below { SameBounds C.Carrier.life C.Carrier.room below result.below }
        ensures list { quota_list C.Carrier result ≡ [] }
        ensures life { quota_life C.Carrier result ≡ C.Carrier.life below }
        ensures room { quota_room C.Carrier result ≡ min limit (C.Carrier.room below) }
    {
        strike_all(&mut below);
        Quota { below, limit }
    }

    // Gives the carrier below back.
    pub fn into_inner(self) -> C
        ensures { result ≡ self.below }
    {
        self.below
    }

    // Strikes what stands past the limit.
    fn settle(&mut self)
        ensures list { C.Carrier.list self.new.below ≡ quota_list C.Carrier self.old }
        ensures bounds { SameBounds C.Carrier.life C.Carrier.room self.old.below self.new.below }
        ensures limit { self.new.limit ≡ self.old.limit }
        ensures within { length (C.Carrier.list self.new.below) ≤ self.new.limit }
    {
        strike_from(&mut self.below, self.limit);
    }
}

impl<C: Carrier> Carrier for Quota<C> {
    ghost list = { quota_list C.Carrier };

    ghost life = { quota_life C.Carrier };

    ghost room = { quota_room C.Carrier };

    ghost laws = { quota_laws C.Carrier };

    fn put(&mut self, frame: Frame) -> Result<(), Refusal>
        ensures put { Put (quota_room C.Carrier self.old) frame (quota_list C.Carrier self.old) result (quota_list C.Carrier self.new) }
        ensures bounds { SameBounds (quota_life C.Carrier) (quota_room C.Carrier) self.old self.new }
        ensures settled { length (C.Carrier.list self.new.below) ≤ self.new.limit }
    {
        self.settle(); // by a put that is refused too
        if self.below.count() >= self.limit {
            return Err(Refusal::CarrierFull);
        }
        self.below.put(frame)
    }

    fn count(&self) -> u32 {
        self.below.count().min(self.limit)
    }

    fn show(&self, place: u32) -> Result<(Frame, u32), Refusal> {
        if place >= self.limit {
            return Err(Refusal::NoSuchPlace);
        }
        self.below.show(place)
    }

    fn strike(&mut self, place: u32) -> Result<(), Refusal> {
        self.settle();
        self.below.strike(place)
    }

    #[tactic(auto, using(crate::proofs::Quotas::take_ticked))]
    fn tick(&mut self) {
        self.settle();
        self.below.tick();
    }

    fn lifetime(&self) -> u32 {
        self.below.lifetime()
    }

    fn capacity(&self) -> u32 {
        self.below.capacity().min(self.limit)
    }
}
