// What happens in the air: frames are lost, and time passes.
ghost use Rattle.path.specs.States.{ends_of};
ghost use Rattle.path.specs.Steps.{LostOut, LostBack, Ticked};

use crate::path::Path;
use carrier::Carrier;
use wire::Refusal;

impl<O: Carrier, K: Carrier> Path<O, K> {
    // Strikes the frame at a place of the outward carrier. One call for each side: a side as an argument would have to be told from the other again.
    pub fn lose_outward(&mut self, place: u32) -> Result<(), Refusal>
        ensures { LostOut place (ends_of O.Carrier K.Carrier self.old) result (ends_of O.Carrier K.Carrier self.new) }
    {
        self.made()?;
        self.out.strike(place)
    }

    // Strikes the frame at a place of the back carrier.
    pub fn lose_back(&mut self, place: u32) -> Result<(), Refusal>
        ensures { LostBack place (ends_of O.Carrier K.Carrier self.old) result (ends_of O.Carrier K.Carrier self.new) }
    {
        self.made()?;
        self.back.strike(place)
    }

    // One tick of time passes on both carriers.
    pub fn tick(&mut self) -> Result<(), Refusal>
        ensures { Ticked (ends_of O.Carrier K.Carrier self.old) result (ends_of O.Carrier K.Carrier self.new) }
    {
        self.made()?;
        self.out.tick();
        self.back.tick();
        self.sender.rest();
        Ok(())
    }
}
