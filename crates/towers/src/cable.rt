// A cable: the shortest carrier there is, and a pattern for one's own. It holds one frame, until the next tick.
ghost use Rattle.std.specs.Prelude.{◌≡◌, []};
ghost use Rattle.towers.specs.Cables.{cable_list, cable_life, cable_room, cable_laws};

use carrier::Carrier;
use wire::{Frame, Refusal};

#[derive(Drop)]
pub struct Cable {
    held: Option<Frame>,
}

impl Cable {
    pub fn new() -> Cable
        ensures { cable_list result ≡ [] }
    {
        Cable { held: None }
    }
}

impl Carrier for Cable {
    ghost list = { cable_list };

    ghost life = { cable_life };

    ghost room = { cable_room };

    ghost laws = { cable_laws };

    fn put(&mut self, frame: Frame) -> Result<(), Refusal> {
        if self.held.is_some() {
            return Err(Refusal::CarrierFull);
        }
        self.held = Some(frame);
        Ok(())
    }

    fn count(&self) -> u32 {
        u32::from(self.held.is_some())
    }

    fn show(&self, place: u32) -> Result<(Frame, u32), Refusal> {
        self.held
            .filter(|_| place == 0)
            .map(|frame| (frame, 0))
            .ok_or(Refusal::NoSuchPlace)
    }

    fn strike(&mut self, place: u32) -> Result<(), Refusal> {
        if place >= self.count() {
            return Err(Refusal::NoSuchPlace);
        }
        self.held = None;
        Ok(())
    }

    fn tick(&mut self) {
        self.held = None;
    }

    fn lifetime(&self) -> u32 {
        1
    }

    fn capacity(&self) -> u32 {
        1
    }
}
