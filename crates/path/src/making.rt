// How a path begins and how it ends.
ghost use Rattle.std.specs.Prelude.{◌≡◌, length};
ghost use Rattle.ends.specs.Stops.{Checked};
ghost use Rattle.path.specs.Makings.{bar_of};
ghost use Rattle.path.specs.States.{ends_of, setting_with, new_ends};
ghost use Rattle.path.specs.Steps.{emptied, outcome_of};
ghost use Rattle.store.specs.Stores.{stored};

use crate::entry::Entry;
use crate::path::Path;
use carrier::Carrier;
use ends::{Outcome, Receiver, Sender};
use store::WindowStore;
use wire::{Refusal, Terms};

impl<O: Carrier, K: Carrier> Path<O, K> {
    // Says whether making a path of these is refused. No path stands yet that could check its store.
    pub fn check<B: Copy>(
        terms: Terms,
        out: &O,
        back: &K,
        got: &WindowStore<Option<Entry<B>>>,
    ) -> Result<(), Refusal>
        ensures { Checked (bar_of O.Carrier K.Carrier terms out.now back.now (length (stored got.now))) result }
    {
        if out.lifetime() > terms.lifetime() || back.lifetime() > terms.lifetime() {
            return Err(Refusal::LifetimeTooLong);
        }
        if out.count() > 0 || back.count() > 0 {
            return Err(Refusal::CarrierNotEmpty);
        }
        if got.len() != u64::from(terms.receive_window()) {
            return Err(Refusal::ReceiverStoreLength);
        }
        if out.capacity() == 0 || back.capacity() == 0 {
            return Err(Refusal::NoCapacity);
        }
        Ok(())
    }

    // Makes a path and empties the receiver's store. Against a refusal the store stays as found, and every call gives that refusal.
    pub fn new<B: Copy>(
        terms: Terms,
        out: O,
        back: K,
        got: &mut WindowStore<Option<Entry<B>>>,
    ) -> Path<O, K>
        ensures ends { ends_of O.Carrier K.Carrier result ≡ new_ends (setting_with O.Carrier K.Carrier terms (bar_of O.Carrier K.Carrier terms out back (length (stored got.old))) out back) (O.Carrier.list out) (K.Carrier.list back) }
        ensures store { stored got.new ≡ emptied (bar_of O.Carrier K.Carrier terms out back (length (stored got.old))) (stored got.old) }
        ensures lender { got.new.places.ghost_name ≡ got.old.places.ghost_name }
    {
        let refused = Path::check(terms, &out, &back, got).err();
        if refused.is_none() {
            got.fill(None);
        }
        Path {
            refused,
            sender: Sender::new(terms),
            receiver: Receiver::new(terms),
            out,
            back,
        }
    }

    // Moves the path away, says how it ended and returns both carriers.
    pub fn end(self) -> (Outcome, O, K)
        ensures outcome { result.0 ≡ outcome_of (ends_of O.Carrier K.Carrier self) }
        ensures carriers { (result.1 ≡ self.out) × (result.2 ≡ self.back) }
    {
        let Path {
            refused: _,
            sender,
            receiver: _,
            out,
            back,
        } = self;
        (sender.outcome(), out, back)
    }
}
