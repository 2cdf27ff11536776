// The two ends of a transfer by their numbers alone: no frames, no carriers, no stores.
#![tactic(auto)]

mod cyclic;
mod moves;
mod outcome;
mod receiver;
mod receiving;
mod sender;
mod sending;

pub use moves::Move;
pub use outcome::Outcome;
pub use receiver::Receiver;
pub use sender::Sender;
