// The plain words of commands, faults and whole frames.
ghost use Rattle.std.specs.Prelude.{Some};
ghost use Rattle.explain.specs.Texts.{command_text, layer_text, cause_text, fault_text, meaning_text};

use crate::meaning::Meaning;
use std::fmt;
use wire::{Cause, Command, Fault, Layer, Reading};

// A value of `wire` in words; a type of this crate, since neither `Display` nor those of `wire` are.
#[derive(Clone, Copy)]
pub(crate) struct Plain<T>(pub(crate) T);

impl fmt::Display for Plain<Command> {
    ghost output = { λ p. Some (command_text p.0) };

    fn fmt<W: fmt::Write>(&self, f: &mut fmt::Formatter<W>) -> fmt::Result {
        match self.0 {
            Command::Stop => f.write_str("stop"),
            Command::Start { channel } => write!(f, "start channel {channel}"),
            Command::Set { channel, level } => write!(f, "set channel {channel} to level {level}"),
        }
    }
}

impl fmt::Display for Plain<Layer> {
    ghost output = { λ p. Some (layer_text p.0) };

    fn fmt<W: fmt::Write>(&self, f: &mut fmt::Formatter<W>) -> fmt::Result {
        f.write_str(match self.0 {
            Layer::Frame => "frame",
            Layer::End => "end",
            Layer::Block => "block",
        })
    }
}

impl fmt::Display for Plain<Cause> {
    ghost output = { λ p. Some (cause_text p.0) };

    fn fmt<W: fmt::Write>(&self, f: &mut fmt::Formatter<W>) -> fmt::Result {
        f.write_str(match self.0 {
            Cause::NoKind => "kind 00",
            Cause::NotZero => "a bit that must be zero is not",
            Cause::KindNotTaken => "a kind that this end does not take",
            Cause::NumberTooLarge => "a number not below N",
            Cause::BlockRefused => "words that the block type refuses",
        })
    }
}

impl fmt::Display for Plain<Fault> {
    ghost output = { λ p. Some (fault_text p.0) };

    fn fmt<W: fmt::Write>(&self, f: &mut fmt::Formatter<W>) -> fmt::Result {
        let Fault { layer, cause, word } = self.0;
        let (layer, number, cause) = (Plain(layer), cause.number(), Plain(cause));
        write!(f, "layer {layer}, cause {number} ({cause}), word {word}")
    }
}

impl fmt::Display for Meaning {
    ghost output = { λ m. Some (meaning_text m) };

    fn fmt<W: fmt::Write>(&self, f: &mut fmt::Formatter<W>) -> fmt::Result {
        match *self {
            Meaning::Command { number, command } => {
                write!(f, "data {number}: {}", Plain(command))
            }
            Meaning::Reading {
                number,
                reading: Reading { time, value },
            } => write!(f, "data {number}: reading at time {time}, value {value}"),
            Meaning::Acknowledgement { number, window } => {
                write!(f, "acknowledgement {number}: window {window}")
            }
            Meaning::EndMark { number } => write!(f, "end mark {number}"),
        }
    }
}
