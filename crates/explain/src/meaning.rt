// What a captured frame says, and to whom.
use wire::{Command, End, Reading};

#[derive(Clone, Copy)]
pub enum Meaning {
    Command { number: u16, command: Command },
    Reading { number: u16, reading: Reading },
    Acknowledgement { number: u16, window: u16 },
    EndMark { number: u16 },
}

// What data frames hold.
#[derive(Clone, Copy)]
pub enum Blocks {
    Commands,
    Readings,
}

// How frames are read: as one end would, or as frames alone.
#[derive(Clone, Copy)]
pub struct Listener {
    pub blocks: Blocks,
    pub end: Option<End>,
}
