// Why a call is refused: one list for the whole library, by number. Where several apply, the smallest is given.
ghost use Rattle.std.specs.Prelude.{◌≡◌};
ghost use Rattle.refusal.specs.Refusals.{refusal_number};
ghost use Rattle.refusal.specs.declared.refusals.Refusal.TheVariants.{Malformed};

use crate::fault::Fault;

#[derive(Clone, Copy)]
pub enum Refusal {
    TermOutOfRange,
    TooFewNumbers,
    // a carrier's lifetime is above the terms' lifetime
    LifetimeTooLong,
    // a path is made over a carrier that holds a frame
    CarrierNotEmpty,
    // the sender's store is not as long as the send window
    SenderStoreLength,
    // the receiver's store is not as long as the receive window
    ReceiverStoreLength,
    // as many entries wait to be heard of as the sender's store holds
    SenderStoreFull,
    AlreadySealed,
    // a million blocks were accepted
    PathFull,
    // every accepted entry was sent
    NothingToSend,
    // the receiver's window has no room for another first send
    WindowClosed,
    // too few ticks since the last first send
    TooSoon,
    // a resend names an entry that was not sent, or was heard of
    NotOutstanding,
    CarrierFull,
    // no frame stands at that place of a carrier
    NoSuchPlace,
    // a round begins with a frame in the air
    FrameInTheAir,
    NothingToDeliver,
    BookFull,
    Malformed(Fault),
    // a path is made over a carrier that can hold no frame
    NoCapacity,
}

impl Refusal {
    // Written out, since a variant that holds a fault has no number of its own to cast; a method, as a cause's number is.
    pub fn number(self) -> u8
        ensures { result ≡ refusal_number self }
    {
        match self {
            Refusal::TermOutOfRange => 1,
            Refusal::TooFewNumbers => 2,
            Refusal::LifetimeTooLong => 3,
            Refusal::CarrierNotEmpty => 4,
            Refusal::SenderStoreLength => 5,
            Refusal::ReceiverStoreLength => 6,
            Refusal::SenderStoreFull => 7,
            Refusal::AlreadySealed => 8,
            Refusal::PathFull => 9,
            Refusal::NothingToSend => 10,
            Refusal::WindowClosed => 11,
            Refusal::TooSoon => 12,
            Refusal::NotOutstanding => 13,
            Refusal::CarrierFull => 14,
            Refusal::NoSuchPlace => 15,
            Refusal::FrameInTheAir => 16,
            Refusal::NothingToDeliver => 17,
            Refusal::BookFull => 18,
            Refusal::Malformed(_) => 19,
            Refusal::NoCapacity => 20,
        }
    }
}

// What a frame is refused for passes up unchanged.
impl From<Fault> for Refusal {
    ghost from_gives = { λ x y. y ≡ Malformed x };

    fn from(fault: Fault) -> Refusal {
        Refusal::Malformed(fault)
    }
}
