// Why a frame is malformed and why a call is refused, by number.
#![tactic(auto)]

mod fault;
mod refusals;

pub use fault::{Cause, Fault, Layer};
pub use refusals::Refusal;
