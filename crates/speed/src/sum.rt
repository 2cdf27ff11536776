// The checksum over all that calls answer.
ghost use Rattle.std.specs.Prelude.{◌≡◌, ◌+◌, ◌*◌, ◌%◌, ◌^◌};

use path::Outcome;
use wire::Refusal;

#[derive(Clone, Copy)]
pub struct Sum {
    pub value: u64,
}

// What is added to the number of a refusal, to tell it from an answer.
const REFUSED: u64 = 1_000_000_000;

impl Sum {
    // Takes in a number.
    pub fn take(&mut self, x: u64)
        ensures { self.new.value ≡ (self.old.value * 31 + x) % 2 ^ 64 }
    {
        self.value = self.value.wrapping_mul(31).wrapping_add(x);
    }

    // Takes in what a call answered: its number and one more, nothing as 0, or its refusal.
    pub fn answer(&mut self, answer: Result<Option<u64>, Refusal>) {
        match answer {
            Ok(Some(number)) => self.take(number.saturating_add(1)),
            Ok(None) => self.take(0),
            Err(refusal) => self.take(REFUSED + u64::from(refusal.number())),
        }
    }

    // Takes in how a path ended.
    pub fn outcome(&mut self, outcome: Outcome) {
        match outcome {
            Outcome::Complete => self.take(1),
            Outcome::Unsure { .. } => self.take(2),
        }
    }
}
