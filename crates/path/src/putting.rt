// What a path puts into the air, without the refusals of its calls.
ghost use Rattle.path.specs.Puts.{PutOut, PutBack};
ghost use Rattle.path.specs.States.{ends_of};
ghost use Rattle.store.specs.Stores.{stored};

use crate::entry::Entry;
use crate::framing::{acknowledgement, entry_frame};
use crate::path::Path;
use carrier::Carrier;
use store::WindowStore;
use wire::{Block, Refusal};

impl<O: Carrier, K: Carrier> Path<O, K> {
    // Puts the entry under a number onto the outward carrier.
    pub(crate) fn put_entry<B: Block>(
        &mut self,
        kept: &WindowStore<Entry<B>>,
        number: u64,
    ) -> Result<(), Refusal>
        ensures { PutOut B.Block.written number (ends_of O.Carrier K.Carrier self.old) (stored kept.now) result (ends_of O.Carrier K.Carrier self.new) }
    {
        let entry = kept.read(number, Entry::EndMark);
        let frame = entry_frame(self.sender.terms, number, entry);
        self.out.put(frame)
    }

    // Puts an acknowledgement of nr with the room past it onto the back carrier.
    pub(crate) fn put_acknowledgement(&mut self) -> Result<(), Refusal>
        ensures { PutBack (ends_of O.Carrier K.Carrier self.old) result (ends_of O.Carrier K.Carrier self.new) }
    {
        let receiver = self.receiver;
        let frame = acknowledgement(receiver.terms, receiver.nr, receiver.room());
        self.back.put(frame)
    }
}
