// Why a frame is malformed: the layer that found it, the cause and the word.
ghost use Rattle.std.specs.Prelude.{◌≡◌};
ghost use Rattle.refusal.specs.Faults.{cause_number, no_kind, not_zero, end_fault, block_fault};

#[derive(Clone, Copy)]
pub enum Layer {
    Frame,
    End,
    Block,
}

#[derive(Clone, Copy)]
pub enum Cause {
    // kind 00
    NoKind = 1,
    // a bit that must be zero is not
    NotZero = 2,
    // a kind that this end does not take
    KindNotTaken = 3,
    // a cyclic number that is not below the count of numbers
    NumberTooLarge = 4,
    // words that the block type refuses
    BlockRefused = 5,
}

impl Cause {
    // A method: it is written `cause.number()`, where `u8::from(cause)` would not say which number.
    pub fn number(self) -> u8
        ensures { result ≡ cause_number self }
    {
        self as u8
    }
}

#[derive(Clone, Copy)]
pub struct Fault {
    pub layer: Layer,
    pub cause: Cause,
    // the first word at fault, counted from the head, which is 0; a number, since it is told and printed as one
    pub word: u8,
}

// One name for each fault that a reader finds; by a layer and a cause, callers would have to know which go together.
impl Fault {
    pub fn no_kind() -> Fault
        ensures { result ≡ no_kind }
    {
        Fault {
            layer: Layer::Frame,
            cause: Cause::NoKind,
            word: 0,
        }
    }

    pub fn not_zero(word: u8) -> Fault
        ensures { result ≡ not_zero word }
    {
        Fault {
            layer: Layer::Frame,
            cause: Cause::NotZero,
            word,
        }
    }

    pub fn kind_not_taken() -> Fault
        ensures { result ≡ end_fault Cause.KindNotTaken }
    {
        Fault {
            layer: Layer::End,
            cause: Cause::KindNotTaken,
            word: 0,
        }
    }

    pub fn number_too_large() -> Fault
        ensures { result ≡ end_fault Cause.NumberTooLarge }
    {
        Fault {
            layer: Layer::End,
            cause: Cause::NumberTooLarge,
            word: 0,
        }
    }

    pub fn block(word: u8) -> Fault
        ensures { result ≡ block_fault word }
    {
        Fault {
            layer: Layer::Block,
            cause: Cause::BlockRefused,
            word,
        }
    }
}
