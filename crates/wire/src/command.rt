// A command to a station's pumps.
ghost use Rattle.wire.specs.Commands.{Fits, words_of, command_of};
ghost use Rattle.std.proofs.Common.{rules};

use crate::block::Block;
use crate::words::Words;
use refusal::Fault;

#[derive(Clone, Copy)]
pub enum Command {
    Stop,
    Start { channel: u16 },
    Set { channel: u16, level: u32 },
}

// Kinds as they stand in the first word; read, they are the variants of `Command`.
const STOP: u32 = 0x4000_0000;

const START: u32 = 0x8000_0000;

const SET: u32 = 0xc000_0000;

impl Block for Command {
    ghost fits = { Fits };

    ghost written = { words_of };

    ghost reads = { command_of };

    ghost back = { Prim.search rules };

    ghost again = { Prim.search rules };

    ghost refuses = { Prim.search rules };

    fn words(self) -> Words {
        match self {
            Command::Stop => Words {
                first: STOP,
                second: 0,
            },
            Command::Start { channel } => Words {
                first: START + u32::from(channel),
                second: 0,
            },
            Command::Set { channel, level } => Words {
                first: SET + u32::from(channel),
                second: level,
            },
        }
    }

    fn from_words(words: Words) -> Result<Command, Fault> {
        let low = words.first % 0x4000_0000;
        if low > 0xffff {
            return Err(Fault::block(1));
        }
        let channel = low as u16;
        let level = words.second;
        match words.first >> 30 {
            1 if channel > 0 => Err(Fault::block(1)),
            1 if level > 0 => Err(Fault::block(2)),
            1 => Ok(Command::Stop),
            2 if level > 0 => Err(Fault::block(2)),
            2 => Ok(Command::Start { channel }),
            3 => Ok(Command::Set { channel, level }),
            _ => Err(Fault::block(1)),
        }
    }
}
