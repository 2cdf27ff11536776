// A round: what is due is delivered and heard of, and the lowest entry not heard of goes out and arrives.
ghost use Rattle.std.specs.Prelude.{◌≡◌, List, Option, length};
ghost use Rattle.ends.specs.Stops.{Checked};
ghost use Rattle.path.specs.Rounds.{Ticks, Delivers, Opens, Lands, Closes, bar_with, Rounded};
ghost use Rattle.path.specs.States.{ends_of, state_with, state_of};
ghost use Rattle.store.specs.Stores.{stored};
ghost use Rattle.path.specs.declared.entry.Entry.{Entry as Kept};

use crate::entry::Entry;
use crate::path::Path;
use carrier::Carrier;
use ends::Move;
use store::WindowStore;
use wire::{Block, Refusal};

impl<O: Carrier, K: Carrier> Path<O, K> {
    // Delivers while it is accepted, and answers how many entries were delivered. A closure that delivers would hold what the clauses speak of.
    fn deliver_all<B: Block>(
        &mut self,
        got: &mut WindowStore<Option<Entry<B>>>,
        book: &mut [B],
    ) -> u64
        ensures delivers { (kept : List (Kept B)) → Delivers B.Block result (state_with (ends_of O.Carrier K.Carrier self.old) kept (stored got.old) book.old) (state_with (ends_of O.Carrier K.Carrier self.new) kept (stored got.new) book.new) }
        ensures lender { got.new.places.ghost_name ≡ got.old.places.ghost_name }
    {
        let mut delivered = 0;
        while let Ok(_) = self.deliver(got, book) {
            delivered += 1;
        }
        delivered
    }

    // Lets as many ticks pass as lie between two first sends.
    fn wait<B: Block>(&mut self)
        ensures { (kept : List (Kept B)) (got : List (Option (Kept B))) (book : List B) → Ticks B.Block self.old.sender.terms.gap (state_with (ends_of O.Carrier K.Carrier self.old) kept got book) (state_with (ends_of O.Carrier K.Carrier self.new) kept got book) }
    {
        for _i in 0..self.sender.terms.gap() {
            let _ = self.tick();
        }
    }

    // The first half: what is due is delivered, and the sender hears how far the receiver is.
    fn open<B: Block>(&mut self, got: &mut WindowStore<Option<Entry<B>>>, book: &mut [B]) -> u64
        ensures opens { (kept : List (Kept B)) → Opens B.Block result (state_with (ends_of O.Carrier K.Carrier self.old) kept (stored got.old) book.old) (state_with (ends_of O.Carrier K.Carrier self.new) kept (stored got.new) book.new) }
        ensures lender { got.new.places.ghost_name ≡ got.old.places.ghost_name }
    {
        let delivered = self.deliver_all(got, book);
        let _ = self.acknowledge();
        let _ = self.hear(0);
        let _ = self.lose_back(0);
        delivered
    }

    // What went out arrives.
    fn land<B: Block>(&mut self, got: &mut WindowStore<Option<Entry<B>>>)
        ensures lands { (kept : List (Kept B)) (book : List B) → Lands B.Block (state_with (ends_of O.Carrier K.Carrier self.old) kept (stored got.old) book) (state_with (ends_of O.Carrier K.Carrier self.new) kept (stored got.new) book) }
        ensures lender { got.new.places.ghost_name ≡ got.old.places.ghost_name }
    {
        let _ = self.arrive(0, got);
        let _ = self.lose_outward(0);
    }

    // The second half: the lowest entry not heard of goes out, again or first after a gap, and arrives.
    fn close<B: Block>(
        &mut self,
        kept: &WindowStore<Entry<B>>,
        got: &mut WindowStore<Option<Entry<B>>>,
    )
        ensures closes { (book : List B) → Closes B.Block (state_of O.Carrier K.Carrier self.old kept.now got.old book) (state_of O.Carrier K.Carrier self.new kept.now got.new book) }
        ensures lender { got.new.places.ghost_name ≡ got.old.places.ghost_name }
    {
        match self.sender.next_move() {
            Move::Again => {
                let _ = self.resend(kept, 0);
                self.land(got);
            }
            Move::First => {
                self.wait::<B>();
                let _ = self.send(kept);
                self.land(got);
            }
            Move::Stop => {}
        }
    }

    // Refuses a round where a store has the wrong length or a frame is in the air.
    fn check_round<B: Copy>(
        &self,
        kept: &WindowStore<Entry<B>>,
        got: &WindowStore<Option<Entry<B>>>,
    ) -> Result<(), Refusal>
        ensures { Checked (bar_with (ends_of O.Carrier K.Carrier self.now) (length (stored kept.now)) (length (stored got.now))) result }
    {
        self.check_kept(kept)?;
        self.check_got(got)?;
        if self.out.count() > 0 || self.back.count() > 0 {
            return Err(Refusal::FrameInTheAir);
        }
        Ok(())
    }

    // A round over empty carriers, which answers how many entries were delivered.
    pub fn round<B: Block>(
        &mut self,
        kept: &WindowStore<Entry<B>>,
        got: &mut WindowStore<Option<Entry<B>>>,
        book: &mut [B],
    ) -> Result<u64, Refusal>
        ensures rounded { Rounded B.Block (state_of O.Carrier K.Carrier self.old kept.now got.old book.old) result (state_of O.Carrier K.Carrier self.new kept.now got.new book.new) }
        ensures lender { got.new.places.ghost_name ≡ got.old.places.ghost_name }
    {
        self.check_round(kept, got)?;
        let delivered = self.open(got, book);
        self.close(kept, got);
        Ok(delivered)
    }
}
