// One word of a script: its kind in bits 31 to 28, and its argument below.
ghost use Rattle.std.specs.Prelude.{◌≡◌, Some, None, MatchResult};
ghost use Rattle.decode.specs.Kinds.{IsKindOf};
ghost use Rattle.decode.specs.Words.{kind_of, argument_of, meaning_of};

use crate::kind::{BadWord, Kind};
use promise::Call;
use wire::Command;

// A word's kind and its argument.
pub(crate) fn parted(word: u32) -> (Result<Kind, BadWord>, u32)
    ensures kind { IsKindOf (kind_of word) result.0 }
    ensures argument { result.1 ≡ argument_of word }
{
    (Kind::try_from(word >> 28), word % 0x1000_0000)
}

// What a word means where a call is due.
#[derive(Clone, Copy)]
pub enum Due {
    Call(Call<Command>),
    // two command words follow
    Offer,
    End,
}

// Refused are a kind unknown or out of order, and an argument where there is none.
impl TryFrom<u32> for Due {
    type Error = BadWord;

    ghost try_from_gives = { λ word r. MatchResult r (λ due. meaning_of word ≡ Some due) (λ e. meaning_of word ≡ None) };

    fn try_from(word: u32) -> Result<Self, BadWord> {
        let (kind, argument) = parted(word);
        match (kind?, argument) {
            (Kind::Offer, 0) => Ok(Due::Offer),
            (Kind::Seal, 0) => Ok(Due::Call(Call::Seal)),
            (Kind::Send, 0) => Ok(Due::Call(Call::Send)),
            (Kind::Resend, j) => Ok(Due::Call(Call::Resend(u64::from(j)))),
            (Kind::Arrive, place) => Ok(Due::Call(Call::Arrive(place))),
            (Kind::Hear, place) => Ok(Due::Call(Call::Hear(place))),
            (Kind::Deliver, 0) => Ok(Due::Call(Call::Deliver)),
            (Kind::Acknowledge, 0) => Ok(Due::Call(Call::Acknowledge)),
            (Kind::LoseOutward, place) => Ok(Due::Call(Call::LoseOutward(place))),
            (Kind::LoseBack, place) => Ok(Due::Call(Call::LoseBack(place))),
            (Kind::Tick, 0) => Ok(Due::Call(Call::Tick)),
            (Kind::Round, 0) => Ok(Due::Call(Call::Round)),
            (Kind::End, 0) => Ok(Due::End),
            _ => Err(BadWord),
        }
    }
}
