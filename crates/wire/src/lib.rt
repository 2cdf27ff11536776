// What crosses the air and what is agreed beforehand: frames, blocks, terms, refusals.
#![tactic(auto)]

mod block;
mod command;
mod content;
mod end;
mod firmware;
mod frame;
mod reading;
mod window;
mod windowing;
mod words;

pub use block::Block;
pub use command::Command;
pub use content::{Content, Head};
pub use end::{End, Side};
pub use firmware::{transfer_frame_fault, transfer_least_numbers};
pub use frame::Frame;
pub use reading::Reading;
pub use refusal::{Cause, Fault, Layer, Refusal};
pub use terms::Terms;
pub use window::Window;
pub use words::Words;
