// A meter reading: a time and a signed value. Every pair of words is one.
ghost use Rattle.wire.specs.Readings.{Fits, words_of, reading_of};
ghost use Rattle.std.proofs.Common.{rules};

use crate::block::Block;
use crate::words::Words;
use refusal::Fault;

#[derive(Clone, Copy)]
pub struct Reading {
    pub time: u32,
    pub value: i32,
}

impl Block for Reading {
    ghost fits = { Fits };

    ghost written = { words_of };

    ghost reads = { reading_of };

    ghost back = { Prim.search rules };

    ghost again = { Prim.search rules };

    ghost refuses = { Prim.search rules };

    fn words(self) -> Words {
        Words {
            first: self.time,
            second: self.value.cast_unsigned(),
        }
    }

    fn from_words(words: Words) -> Result<Reading, Fault> {
        Ok(Reading {
            time: words.first,
            value: words.second.cast_signed(),
        })
    }
}
