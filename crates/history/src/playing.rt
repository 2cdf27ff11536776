// A list of calls on one fresh path, from its making to its end.
ghost use Rattle.std.specs.Prelude.{◌≡◌};
ghost use Rattle.history.specs.Runs.{Plays, Run, first_state};
ghost use Rattle.path.specs.States.{state_of};
ghost use Rattle.promise.specs.Turns.{calls_of};

use crate::turns::make_call;
use carrier::Carrier;
use path::{Entry, Outcome, Path, WindowStore};
use promise::Turn;
use wire::{Block, Terms};

// Makes each call on the result of the one before, and writes its answer beside it.
fn play<B: Block, O: Carrier, K: Carrier>(
    path: &mut Path<O, K>,
    kept: &mut WindowStore<Entry<B>>,
    got: &mut WindowStore<Option<Entry<B>>>,
    book: &mut [B],
    turns: &mut [Turn<B>],
)
    ensures played { Plays B.Block (state_of O.Carrier K.Carrier path.old kept.old got.old book.old) turns.new (state_of O.Carrier K.Carrier path.new kept.new got.new book.new) }
    ensures same { calls_of turns.new ≡ calls_of turns.old }
    ensures kept_lender { kept.new.places.ghost_name ≡ kept.old.places.ghost_name }
    ensures got_lender { got.new.places.ghost_name ≡ got.old.places.ghost_name }
{
    for turn in turns.iter_mut() {
        turn.answer = make_call(path, kept, got, book, turn.call);
    }
}

// Makes a path, makes every call of the list, accepted or refused, writes each answer beside its call, and ends the path.
pub fn replay<B: Block, O: Carrier, K: Carrier>(
    terms: Terms,
    out: O,
    back: K,
    kept: &mut [Entry<B>],
    got: &mut [Option<Entry<B>>],
    book: &mut [B],
    turns: &mut [Turn<B>],
) -> (Outcome, O, K)
    ensures { Run B.Block (first_state O.Carrier K.Carrier terms out back kept.old got.old book.old) turns.old turns.new result.0 (O.Carrier.list result.1) (K.Carrier.list result.2) kept.new got.new book.new }
{
    let mut kept = WindowStore::new(kept);
    let mut got = WindowStore::new(got);
    let mut path = Path::new(terms, out, back, &mut got);
    play(&mut path, &mut kept, &mut got, book, turns);
    path.end()
}
