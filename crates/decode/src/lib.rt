// The words of a script as terms and calls.
#![tactic(auto)]

mod decoder;
mod kind;
mod phase;
mod reading;
mod word;

pub use decoder::Decoder;
pub use kind::{BadWord, Kind};
pub use phase::Phase;
pub use word::Due;
