// What a line of radio means: a list of frames with their ages, a lifetime and a capacity. Code above knows these calls alone.
ghost use Rattle.std.specs.Prelude.{◌≡◌, ℕ, List, length};
ghost use Rattle.carrier.specs.Carriers.{Aged, Lawful, Put, SameBounds, Shown, Struck, ticked};

use wire::{Frame, Refusal};

pub trait Carrier {
    // the frames in the air, each with its age in ticks
    ghost list: { Self → List Aged };

    // the age at which a frame leaves the air
    ghost life: { Self → ℕ };

    // how many frames it can hold
    ghost room: { Self → ℕ };

    ghost laws: { Lawful Self list life room };

    // The frame joins at age 0, at a place that is left open.
    fn put(&mut self, frame: Frame) -> Result<(), Refusal>
        ensures put { Put (room self.old) frame (list self.old) result (list self.new) }
        ensures bounds { SameBounds life room self.old self.new };

    fn count(&self) -> u32
        ensures { result ≡ length (list self.now) };

    // The frame at a place and its age.
    fn show(&self, place: u32) -> Result<(Frame, u32), Refusal>
        ensures { Shown place (list self.now) result };

    // Removes the frame at a place.
    fn strike(&mut self, place: u32) -> Result<(), Refusal>
        ensures struck { Struck place (list self.old) result (list self.new) }
        ensures bounds { SameBounds life room self.old self.new };

    // One tick of time passes.
    fn tick(&mut self)
        ensures ticked { list self.new ≡ ticked (life self.old) (list self.old) }
        ensures bounds { SameBounds life room self.old self.new };

    fn lifetime(&self) -> u32
        ensures { result ≡ life self.now };

    fn capacity(&self) -> u32
        ensures { result ≡ room self.now };
}
