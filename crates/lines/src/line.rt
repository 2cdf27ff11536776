// One printed line: of a call, of the end, of refused terms or of a bad word.
ghost use Rattle.std.specs.Prelude.{◌≡◌, Some};
ghost use Rattle.lines.specs.Lines.{line_of, line_text};

use decode::Kind;
use promise::{Reply, Turn};
use std::fmt;
use wire::{Command, Refusal};

#[derive(Clone, Copy)]
pub enum Line {
    Call {
        position: u64,
        kind: Kind,
        answer: Result<Reply, Refusal>,
    },
    // the two words of an end; its outcome is the path's, which this crate does not know
    Complete {
        position: u64,
    },
    Unsure {
        position: u64,
    },
    Terms {
        refusal: Refusal,
    },
    Bad {
        place: u32,
    },
}

impl Line {
    // The line of the call at a position, counted from 0.
    pub fn of_turn(position: u64, turn: Turn<Command>) -> Line
        ensures { result ≡ line_of position turn }
    {
        let Turn { call, answer } = turn;
        Line::Call {
            position,
            kind: call.into(),
            answer,
        }
    }
}

impl fmt::Display for Line {
    ghost output = { λ l. Some (line_text l) };

    fn fmt<W: fmt::Write>(&self, f: &mut fmt::Formatter<W>) -> fmt::Result {
        match *self {
            Line::Call {
                position,
                kind,
                answer,
            } => {
                write!(f, "{position} {} ", kind.number())?;
                match answer {
                    Ok(Reply::Number(n)) => write!(f, "0 {n}"),
                    Ok(Reply::Ignored | Reply::Done) => f.write_str("0 -"),
                    Err(refusal) => write!(f, "{} -", refusal.number()),
                }
            }
            Line::Complete { position } => {
                write!(f, "{position} {} 0 complete", Kind::End.number())
            }
            Line::Unsure { position } => write!(f, "{position} {} 0 unsure", Kind::End.number()),
            Line::Terms { refusal } => write!(f, "terms {}", refusal.number()),
            Line::Bad { place } => write!(f, "bad {place}"),
        }
    }
}
