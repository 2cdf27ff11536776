// Captured frames explained in plain words, line by line.
#![tactic(auto)]

mod hex;
mod line;
mod listen;
mod meaning;
mod text;

pub use hex::frame_in;
pub use line::{Explained, Unread, explain, try_explain};
pub use meaning::{Blocks, Listener, Meaning};
