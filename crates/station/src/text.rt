// Calls, answers and commands in plain words.
use path::Outcome;
use promise::{Call, Reply, Turn};
use std::fmt;
use wire::{Command, Refusal};

// A command as it is read out.
#[derive(Clone, Copy)]
pub struct Order(pub Command);

impl fmt::Display for Order {
    fn fmt<W: fmt::Write>(&self, f: &mut fmt::Formatter<W>) -> fmt::Result {
        match self.0 {
            Command::Stop => write!(f, "stop all pumps"),
            Command::Start { channel } => write!(f, "start pump {channel}"),
            Command::Set { channel, level } => write!(f, "set pump {channel} to {level}"),
        }
    }
}

// A call as it is told; types of this program, this one and the others, since neither `Display` nor what they hold is.
#[derive(Clone, Copy)]
struct Told(Call<Command>);

impl fmt::Display for Told {
    fn fmt<W: fmt::Write>(&self, f: &mut fmt::Formatter<W>) -> fmt::Result {
        match self.0 {
            Call::Offer(command) => { write!(f, "the control room offers \"{}\"", Order(command)) }
            Call::Seal => write!(f, "the control room seals"),
            Call::Send => write!(f, "it sends the next entry"),
            Call::Resend(j) => write!(f, "it sends again what it waits for, from place {j}"),
            Call::Arrive(place) => write!(f, "the frame at place {place} arrives at the station"),
            Call::Deliver => write!(f, "the station delivers into its book"),
            Call::Acknowledge => write!(f, "the station acknowledges"),
            Call::Hear(place) => write!(f, "the control room hears place {place}"),
            Call::LoseOutward(place) => write!(f, "the frame at place {place} is lost"),
            Call::LoseBack(place) => write!(f, "the acknowledgement at place {place} is lost"),
            Call::Tick => write!(f, "a tick passes"),
            Call::Round => write!(f, "a round is made"),
        }
    }
}

// Why a call was refused. Words that a line puts in: with a `Display` of their own they would be one more type.
fn reason(refusal: Refusal) -> &'static str {
    match refusal {
        Refusal::TermOutOfRange => "a term is out of range",
        Refusal::TooFewNumbers => "there are too few numbers",
        Refusal::LifetimeTooLong => "a frame lives too long",
        Refusal::CarrierNotEmpty => "a carrier is not empty",
        Refusal::SenderStoreLength => "the sender's store has another length",
        Refusal::ReceiverStoreLength => "the receiver's store has another length",
        Refusal::SenderStoreFull => "the sender's store is full",
        Refusal::AlreadySealed => "it is sealed",
        Refusal::PathFull => "the path is full",
        Refusal::NothingToSend => "there is nothing to send",
        Refusal::WindowClosed => "the station has no room",
        Refusal::TooSoon => "it is too soon",
        Refusal::NotOutstanding => "nothing is waited for there",
        Refusal::CarrierFull => "the carrier is full",
        Refusal::NoSuchPlace => "no frame is there",
        Refusal::FrameInTheAir => "a frame is in the air",
        Refusal::NothingToDeliver => "nothing is in sequence",
        Refusal::BookFull => "the book is full",
        Refusal::Malformed(_) => "the frame is malformed",
        Refusal::NoCapacity => "a carrier holds no frame",
    }
}

// What the number means that a call answers; words that a line puts in, likewise.
fn meaning(call: Call<Command>) -> &'static str {
    match call {
        Call::Offer(_) | Call::Seal => "accepted as entry",
        Call::Send | Call::Resend(_) => "out goes entry",
        Call::Arrive(_) => "stored as entry",
        Call::Deliver => "delivered, entry",
        Call::Acknowledge => "it has every entry below",
        Call::Hear(_) => "entries newly heard of,",
        Call::Round => "entries delivered,",
        _ => "number",
    }
}

// A call with what came of it.
#[derive(Clone, Copy)]
pub struct Line(pub Turn<Command>);

impl fmt::Display for Line {
    fn fmt<W: fmt::Write>(&self, f: &mut fmt::Formatter<W>) -> fmt::Result {
        let Turn { call, answer } = self.0;
        let told = Told(call);
        match answer {
            Ok(Reply::Number(number)) => write!(f, "{told}: {} {number}", meaning(call)),
            Ok(Reply::Ignored) => write!(f, "{told}: ignored"),
            Ok(Reply::Done) => write!(f, "{told}"),
            Err(refusal) => {
                write!(
                    f,
                    "{told}: refused, {} ({})",
                    reason(refusal),
                    refusal.number()
                )
            }
        }
    }
}

// How a path ended.
#[derive(Clone, Copy)]
pub struct Ending(pub Outcome);

impl fmt::Display for Ending {
    fn fmt<W: fmt::Write>(&self, f: &mut fmt::Formatter<W>) -> fmt::Result {
        match self.0 {
            Outcome::Complete => write!(f, "every order was heard of"),
            Outcome::Unsure {
                heard,
                sent,
                accepted,
            } => {
                write!(
                    f,
                    "of {accepted} entries {sent} were sent and {heard} heard of"
                )
            }
        }
    }
}
