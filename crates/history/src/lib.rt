// A list of calls on one fresh path, made one after the other, with their answers and the whole promise.
#![tactic(auto)]

mod playing;
mod turns;

pub use playing::replay;
pub use turns::make_call;
