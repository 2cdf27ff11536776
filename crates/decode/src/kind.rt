// The kinds of a script's words, by number.
ghost use Rattle.std.specs.Prelude.{◌≡◌, ◌==◌};
ghost use Rattle.std.specs.List.{find};
ghost use Rattle.decode.specs.Kinds.{kind_number, kind_of_call, IsKindOf};

use promise::Call;
use wire::Command;

#[derive(Clone, Copy)]
pub enum Kind {
    Term = 1,
    Offer = 2,
    Seal = 3,
    Send = 4,
    Resend = 5,
    Arrive = 6,
    Hear = 7,
    Deliver = 8,
    Acknowledge = 9,
    LoseOutward = 10,
    LoseBack = 11,
    Tick = 12,
    Round = 13,
    End = 14,
}

const ALL: [Kind; 14] = [
    Kind::Term,
    Kind::Offer,
    Kind::Seal,
    Kind::Send,
    Kind::Resend,
    Kind::Arrive,
    Kind::Hear,
    Kind::Deliver,
    Kind::Acknowledge,
    Kind::LoseOutward,
    Kind::LoseBack,
    Kind::Tick,
    Kind::Round,
    Kind::End,
];

// What a word is that has no kind, or no meaning where it stands.
#[derive(Clone, Copy)]
pub struct BadWord;

impl Kind {
    // A method, as a cause's number is.
    pub fn number(self) -> u8
        ensures { result ≡ kind_number self }
    {
        self as u8
    }
}

// The first of some kinds that has a number.
fn numbered(kinds: &[Kind], number: u32) -> Option<Kind>
    ensures { result ≡ find (λ kind. kind_number kind == number) kinds.now }
{
    kinds
        .iter()
        .copied()
        .find(|kind| u32::from(kind.number()) == number)
}

impl TryFrom<u32> for Kind {
    type Error = BadWord;

    ghost try_from_gives = { IsKindOf };

    fn try_from(number: u32) -> Result<Self, BadWord> {
        numbered(&ALL, number).ok_or(BadWord)
    }
}

impl From<Call<Command>> for Kind {
    ghost from_gives = { λ call kind. kind ≡ kind_of_call call };

    fn from(call: Call<Command>) -> Self {
        match call {
            Call::Offer(_) => Kind::Offer,
            Call::Seal => Kind::Seal,
            Call::Send => Kind::Send,
            Call::Resend(_) => Kind::Resend,
            Call::Arrive(_) => Kind::Arrive,
            Call::Hear(_) => Kind::Hear,
            Call::Deliver => Kind::Deliver,
            Call::Acknowledge => Kind::Acknowledge,
            Call::LoseOutward(_) => Kind::LoseOutward,
            Call::LoseBack(_) => Kind::LoseBack,
            Call::Tick => Kind::Tick,
            Call::Round => Kind::Round,
        }
    }
}
