// What a round sends. Not an `Option`: a round that sends nothing is one of three.
ghost use Rattle.ends.specs.Moves.{Moves};
ghost use Rattle.ends.specs.Numbers.{sends_of};

use crate::sender::Sender;

#[derive(Clone, Copy)]
pub enum Move {
    // the lowest entry that was sent and not heard of
    Again,
    // the next entry, for the first time
    First,
    // nothing is left, or the window is shut
    Stop,
}

impl Sender {
    pub fn next_move(self) -> Move
        ensures { Moves result (sends_of self) }
    {
        if self.ns > self.na {
            return Move::Again;
        }
        if self.ns < self.ng && self.sw >= 1 {
            return Move::First;
        }
        Move::Stop
    }
}
