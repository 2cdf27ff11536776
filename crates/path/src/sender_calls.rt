// The sending user's calls. The sender's store is lent to each, as the last call left it.
ghost use Rattle.std.specs.Prelude.{◌≡◌};
ghost use Rattle.path.specs.States.{ends_of};
ghost use Rattle.path.specs.Steps.{Offered, Sealed, Sent, Resent, Heard};
ghost use Rattle.store.specs.Stores.{stored};

use crate::entry::Entry;
use crate::framing::told;
use crate::path::Path;
use carrier::Carrier;
use store::WindowStore;
use wire::{Block, Refusal};

impl<O: Carrier, K: Carrier> Path<O, K> {
    // Accepts a block, and answers its number.
    pub fn offer<B: Block>(
        &mut self,
        kept: &mut WindowStore<Entry<B>>,
        block: B,
    ) -> Result<u64, Refusal>
        ensures offered { Offered block (ends_of O.Carrier K.Carrier self.old) (stored kept.old) result (ends_of O.Carrier K.Carrier self.new) (stored kept.new) }
        ensures lender { kept.new.places.ghost_name ≡ kept.old.places.ghost_name }
    {
        self.check_kept(kept)?;
        let sender = self.sender;
        let next = sender.offer()?;
        kept.write(sender.ng, Entry::Block(block));
        self.sender = next;
        Ok(sender.ng)
    }

    // Accepts the end mark, and answers its number. Nothing is accepted after it.
    pub fn seal<B: Block>(&mut self, kept: &mut WindowStore<Entry<B>>) -> Result<u64, Refusal>
        ensures sealed { Sealed (ends_of O.Carrier K.Carrier self.old) (stored kept.old) result (ends_of O.Carrier K.Carrier self.new) (stored kept.new) }
        ensures lender { kept.new.places.ghost_name ≡ kept.old.places.ghost_name }
    {
        self.check_kept(kept)?;
        let sender = self.sender;
        let next = sender.seal()?;
        kept.write(sender.ng, Entry::EndMark);
        self.sender = next;
        Ok(sender.ng)
    }

    // Sends the lowest entry that was not sent yet, and answers its number.
    pub fn send<B: Block>(&mut self, kept: &WindowStore<Entry<B>>) -> Result<u64, Refusal>
        ensures sent { Sent B.Block.written (ends_of O.Carrier K.Carrier self.old) (stored kept.now) result (ends_of O.Carrier K.Carrier self.new) }
    {
        self.check_kept(kept)?;
        let sender = self.sender;
        let next = sender.send()?;
        self.put_entry(kept, sender.ns)?;
        self.sender = next;
        Ok(sender.ns)
    }

    // Sends an entry again that was sent and not heard of, the one `j` past na, and answers its number.
    pub fn resend<B: Block>(&mut self, kept: &WindowStore<Entry<B>>, j: u64) -> Result<u64, Refusal>
        ensures resent { Resent B.Block.written j (ends_of O.Carrier K.Carrier self.old) (stored kept.now) result (ends_of O.Carrier K.Carrier self.new) }
    {
        self.check_kept(kept)?;
        let sender = self.sender;
        sender.outstanding(j)?;
        let number = sender.na + j;
        self.put_entry(kept, number)?;
        Ok(number)
    }

    // Reads the acknowledgement at a place of the back carrier, and answers by how many entries na rose.
    pub fn hear(&mut self, place: u32) -> Result<u64, Refusal>
        ensures heard { Heard place (ends_of O.Carrier K.Carrier self.old) result (ends_of O.Carrier K.Carrier self.new) }
    {
        let (cyclic, window) = told(self.read_back(place)?);
        let sender = self.sender;
        let far = sender.ahead(cyclic);
        self.sender.hear(far, window);
        Ok(sender.rise(far))
    }
}
