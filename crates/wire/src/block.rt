// A block type: how its values are written as words, and which words it reads.
ghost use Rattle.std.specs.Prelude.{◌≡◌, ◌⊎◌, IfOk, Ok, Err, Result};
ghost use Rattle.refusal.specs.Faults.{block_fault};
ghost use Rattle.wire.specs.Words.{Held};
ghost use Rattle.refusal.specs.declared.fault.Fault.{Fault};
ghost use Rattle.wire.specs.declared.words.Words.{Words as Pair};

use crate::words::Words;
use refusal::Fault;

// Not `Into` and `TryFrom`: the laws speak of both ways, and each of those two traits knows one.
pub trait Block: Copy {
    // the values that the type holds
    ghost fits: { Self → Type 0 };

    ghost written: { Self → Pair };

    ghost reads: { Pair → Result Self Fault };

    fn words(self) -> Words
        ensures value { result ≡ written self }
        ensures valid { fits self };

    fn from_words(words: Words) -> Result<Self, Fault>
        ensures value { result ≡ reads words }
        ensures again { IfOk result (λ b. written b ≡ words) };

    // a block that is written is read back as itself
    ghost back: { (b : Self) → fits b → reads (written b) ≡ Ok b };

    // words that are read are the words written again
    ghost again: { (w : Pair) (b : Self) → Held w → reads w ≡ Ok b → written b ≡ w };

    // words that are refused are refused by cause 5, at one of their own
    ghost refuses: { (w : Pair) (f : Fault) → reads w ≡ Err f → (f ≡ block_fault 1) ⊎ (f ≡ block_fault 2) };
}
