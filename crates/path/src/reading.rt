// What a path reads of the frames in the air.
ghost use Rattle.path.specs.Parts.{ReadBack, ReadOut};
ghost use Rattle.path.specs.States.{ends_of};
ghost use Rattle.store.specs.Stores.{stored};

use crate::entry::Entry;
use crate::path::Path;
use carrier::Carrier;
use store::WindowStore;
use wire::{Block, Content, End, Head, Refusal, Side};

impl<O: Carrier, K: Carrier> Path<O, K> {
    // The content of the frame at a place of the outward carrier, as the receiver takes it.
    pub(crate) fn read_outward<B: Block>(
        &self,
        place: u32,
        got: &WindowStore<Option<Entry<B>>>,
    ) -> Result<Content<B>, Refusal>
        ensures { ReadOut B.Block.reads place (ends_of O.Carrier K.Carrier self.now) (stored got.now) result }
    {
        self.check_got(got)?;
        let (frame, _) = self.out.show(place)?;
        let end = End {
            side: Side::Receiver,
            numbers: self.receiver.terms.numbers(),
        };
        Ok(end.read::<B>(frame)?)
    }

    // The head of the frame at a place of the back carrier, as the sender takes it.
    pub(crate) fn read_back(&self, place: u32) -> Result<Head, Refusal>
        ensures { ReadBack place (ends_of O.Carrier K.Carrier self.now) result }
    {
        self.made()?;
        let (frame, _) = self.back.show(place)?;
        let head = frame.head()?;
        let end = End {
            side: Side::Sender,
            numbers: self.sender.terms.numbers(),
        };
        end.check(head)?;
        Ok(head)
    }
}
