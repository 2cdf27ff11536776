// The shelf: a carrier that keeps its frames in a lent slice of records, one frame and its age in each.
ghost use Rattle.std.specs.Prelude.{◌≡◌, min, max, [], length};
ghost use Rattle.carrier.specs.Lifetimes.{ticks_of};
ghost use Rattle.carrier.specs.Shelves.{slot, clipped, grown, fresh, shelf_list, shelf_life, shelf_room, shelf_laws};

use crate::carrier::Carrier;
use crate::lifetime::Lifetime;
use crate::records::{Records, Stays};
use wire::{Frame, Refusal, Words};

#[derive(Clone, Copy)]
pub struct Slot {
    pub frame: Frame,
    pub age: u32,
}

impl Slot {
    // Something to fill a slice with before it is lent.
    pub const EMPTY: Slot = Slot {
        frame: Frame {
            head: 0,
            words: Words::ZERO,
        },
        age: 0,
    };

    // A frame that was put just now.
    fn new(frame: Frame) -> Slot
        ensures { result ≡ slot frame 0 }
    {
        Slot { frame, age: 0 }
    }

    // The frame and its age, kept below the lifetime.
    fn shown(self, life: Lifetime) -> (Frame, u32)
        ensures { result ≡ clipped (ticks_of life) self }
    {
        (self.frame, life.cut(self.age))
    }

    // One tick older.
    fn older(self, life: Lifetime) -> Slot
        ensures { result ≡ grown (ticks_of life) self }
    {
        Slot {
            age: life.cut(self.age) + 1,
            ..self
        }
    }
}

impl Stays<Slot> for Lifetime {
    ghost kept = { λ life slot. fresh (ticks_of life) slot };

    fn stays(&self, slot: &Slot) -> bool {
        slot.age < self.ticks()
    }
}

// It means something at every value: no more records than fit, and no age that reaches the lifetime.
#[derive(Drop)]
pub struct Shelf<'a> {
    slots: Records<'a, Slot>,
    life: Lifetime,
}

impl<'a> Shelf<'a> {
    // An empty shelf. Of the slice it uses 4,096 records at most; a lifetime outside 1 to 65,535 is taken as the nearer end.
    // The clauses say these bounds in full, as the log's do, for who reads no definition.
    pub fn new(slots: &'a mut [Slot], lifetime: u32) -> Shelf<'a>
        ensures list { shelf_list result ≡ [] }
        ensures life { shelf_life result ≡ min 65535 (max 1 lifetime) }
        ensures room { shelf_room result ≡ min 4096 (length slots.old) }
    {
        Shelf {
            slots: Records::new(slots),
            life: Lifetime::new(lifetime),
        }
    }
}

impl Carrier for Shelf<'_> {
    ghost list = { shelf_list };

    ghost life = { shelf_life };

    ghost room = { shelf_room };

    ghost laws = { shelf_laws };

    fn put(&mut self, frame: Frame) -> Result<(), Refusal> {
        self.slots.push(Slot::new(frame))
    }

    fn count(&self) -> u32 {
        self.slots.count()
    }

    fn show(&self, place: u32) -> Result<(Frame, u32), Refusal> {
        // not by `?`: from one result into another the compiler moves the frame byte by byte
        let Some(slot) = self.slots.find(place) else {
            return Err(Refusal::NoSuchPlace);
        };
        Ok(slot.shown(self.life))
    }

    #[tactic(auto, using(crate::proofs::Held::held_strike))]
    fn strike(&mut self, place: u32) -> Result<(), Refusal> {
        self.slots.remove(place)
    }

    fn tick(&mut self) {
        // so a tick of an empty shelf costs little
        if self.slots.is_empty() {
            return;
        }
        let life = self.life;
        self.slots.update(|slot| slot.older(life));
        self.slots.retain(&life);
    }

    fn lifetime(&self) -> u32 {
        self.life.ticks()
    }

    fn capacity(&self) -> u32 {
        self.slots.capacity()
    }
}
