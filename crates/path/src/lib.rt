// The two ends of a transfer over two carriers, and the calls on it.
#![tactic(auto)]

mod air;
mod edges;
mod entry;
mod framing;
mod lending;
mod making;
mod path;
mod putting;
mod reading;
mod receiver_calls;
mod round;
mod sender_calls;

pub use edges::readings_hold;
pub use ends::{Outcome, Receiver, Sender};
pub use entry::Entry;
pub use path::Path;
pub use store::WindowStore;
