// What has been read of a script.
use crate::phase::Phase;
use promise::Turn;
use wire::Command;

// No model: its fields are what a caller takes it apart for.
#[derive(Drop)]
pub struct Decoder {
    // how many words were read; counted here, since the place of a bad word is part of what was read
    pub place: u32,
    pub phase: Phase,
    pub terms: Vec<u32>,
    // the calls, still to be answered
    pub turns: Vec<Turn<Command>>,
    // whether the end was called, also where a bad word comes after it
    pub ended: bool,
}
