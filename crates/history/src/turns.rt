// One call of a list, made on a path.
ghost use Rattle.std.specs.Prelude.{◌≡◌};
ghost use Rattle.history.specs.Calls.{Makes};
ghost use Rattle.path.specs.States.{state_of};

use carrier::Carrier;
use path::{Entry, Path, WindowStore};
use promise::{Call, Reply};
use wire::{Block, Refusal};

// Makes the call that a value names. Calls are values, no closures, since the promise speaks of lists of them.
// Stores and book come one by one, as the calls take them: in one struct their loans would have to be told apart again.
pub fn make_call<B: Block, O: Carrier, K: Carrier>(
    path: &mut Path<O, K>,
    kept: &mut WindowStore<Entry<B>>,
    got: &mut WindowStore<Option<Entry<B>>>,
    book: &mut [B],
    call: Call<B>,
) -> Result<Reply, Refusal>
    ensures makes { Makes B.Block (state_of O.Carrier K.Carrier path.old kept.old got.old book.old) call result (state_of O.Carrier K.Carrier path.new kept.new got.new book.new) }
    ensures kept_lender { kept.new.places.ghost_name ≡ kept.old.places.ghost_name }
    ensures got_lender { got.new.places.ghost_name ≡ got.old.places.ghost_name }
{
    match call {
        Call::Offer(block) => {
            let _words = block.words();
            path.offer(kept, block).map(Reply::Number)
        }
        Call::Seal => path.seal(kept).map(Reply::Number),
        Call::Send => path.send(kept).map(Reply::Number),
        Call::Resend(j) => path.resend(kept, j).map(Reply::Number),
        Call::Arrive(place) => path
            .arrive(place, got)
            .map(|number| number.map_or(Reply::Ignored, Reply::Number)),
        Call::Hear(place) => path.hear(place).map(Reply::Number),
        Call::Deliver => path.deliver(got, book).map(Reply::Number),
        Call::Acknowledge => path.acknowledge().map(Reply::Number),
        Call::LoseOutward(place) => path.lose_outward(place).map(|()| Reply::Done),
        Call::LoseBack(place) => path.lose_back(place).map(|()| Reply::Done),
        Call::Tick => path.tick().map(|()| Reply::Done),
        Call::Round => path.round(kept, got, book).map(Reply::Number),
    }
}
