// What every call asks first: that the path was made, and that what is lent to it fits.
ghost use Rattle.std.specs.Prelude.{length};
ghost use Rattle.ends.specs.Stops.{Checked};
ghost use Rattle.path.specs.Parts.{lend_bar};
ghost use Rattle.refusal.specs.declared.refusals.Refusal.TheVariants.{ReceiverStoreLength, SenderStoreLength};
ghost use Rattle.store.specs.Stores.{stored};

use crate::entry::Entry;
use crate::path::Path;
use store::WindowStore;
use wire::Refusal;

impl<O, K> Path<O, K> {
    // Refuses every call where the making was refused.
    pub(crate) fn made(&self) -> Result<(), Refusal>
        ensures { Checked self.now.refused result }
    {
        self.refused.map_or(Ok(()), Err)
    }

    // Refuses as `made` does, and a store that is not as long as its window.
    fn check_lent<T: Copy>(
        &self,
        store: &WindowStore<T>,
        window: u32,
        refusal: Refusal,
    ) -> Result<(), Refusal>
        ensures { Checked (lend_bar self.now.refused (length (stored store.now)) window refusal) result }
    {
        self.made()?;
        if store.len() != u64::from(window) {
            return Err(refusal);
        }
        Ok(())
    }

    pub(crate) fn check_kept<B: Copy>(&self, kept: &WindowStore<Entry<B>>) -> Result<(), Refusal>
        ensures { Checked (lend_bar self.now.refused (length (stored kept.now)) self.now.sender.terms.send_window SenderStoreLength) result }
    {
        let window = self.sender.terms.send_window();
        self.check_lent(kept, window, Refusal::SenderStoreLength)
    }

    pub(crate) fn check_got<B: Copy>(
        &self,
        got: &WindowStore<Option<Entry<B>>>,
    ) -> Result<(), Refusal>
        ensures { Checked (lend_bar self.now.refused (length (stored got.now)) self.now.receiver.terms.receive_window ReceiverStoreLength) result }
    {
        let window = self.receiver.terms.receive_window();
        self.check_lent(got, window, Refusal::ReceiverStoreLength)
    }
}
