// What holds of every history of a path: the calls made on it, accepted or refused, and their answers.
#![tactic(auto)]

ghost use Rattle.promise.specs.Promise.{Promise};
ghost use Rattle.promise.specs.Turns.{TurnsPromised};
ghost use Rattle.promise.specs.Worked.{Works};

use wire::Block;

mod call;

pub use call::{Call, Reply, Turn};

// The whole promise, for every block type.
pub fn promise_holds<B: Block>()
    ensures { Promise B.Block }
{}

// The same of calls as values with their answers.
pub fn turns_hold<B: Block>()
    ensures { TurnsPromised B.Block }
{}

// One history, worked out.
pub fn history_works<B: Block>()
    ensures { Works B.Block }
{}
