// The carrier that keeps its frames in a slice of words.
#![tactic(auto)]

mod log;

pub use log::Log;
