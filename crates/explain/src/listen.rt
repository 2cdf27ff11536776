// From a captured frame to its meaning.
ghost use Rattle.std.specs.Prelude.{◌≡◌, ℕ};
ghost use Rattle.explain.specs.Meanings.{meant, read_by, meaning_of};
ghost use Rattle.explain.specs.Texts.{told_of};
ghost use Rattle.explain.specs.declared.meaning.Meaning.{Meaning as Told};
ghost use Rattle.explain.specs.declared.meaning.Meaning.TheVariants.{Command as ofCommand, Reading as ofReading};

use crate::line::{Explained, Unread};
use crate::meaning::{Blocks, Listener, Meaning};
use wire::{Block, Command, Content, End, Fault, Frame, Reading};

// A block type that has words for its blocks.
trait Spoken: Block {
    ghost said: { ℕ → Self → Told };

    // what a data frame with this number and block says
    fn say(self, number: u16) -> Meaning
        ensures { result ≡ said number self };
}

impl Spoken for Command {
    ghost said = { λ number command. ofCommand number command };

    fn say(self, number: u16) -> Meaning {
        Meaning::Command {
            number,
            command: self,
        }
    }
}

impl Spoken for Reading {
    ghost said = { λ number reading. ofReading number reading };

    fn say(self, number: u16) -> Meaning {
        Meaning::Reading {
            number,
            reading: self,
        }
    }
}

impl<B: Spoken> From<Content<B>> for Meaning {
    ghost from_gives = { λ content meaning. meaning ≡ meant B.said content };

    fn from(content: Content<B>) -> Self {
        match content {
            Content::Data { number, block } => block.say(number),
            Content::Acknowledgement { number, window } => Meaning::Acknowledgement {
                number,
                window: window.size(),
            },
            Content::EndMark { number } => Meaning::EndMark { number },
        }
    }
}

// As one end would read a frame, or alone.
fn read_by<B: Block>(end: Option<End>, frame: Frame) -> Result<Content<B>, Fault>
    ensures { result ≡ read_by end B.reads frame }
{
    match end {
        Some(end) => end.read(frame),
        None => frame.content(),
    }
}

impl Listener {
    // What a frame says to this listener.
    pub fn try_hear(self, frame: Frame) -> Result<Meaning, Fault>
        ensures { result ≡ meaning_of self frame }
    {
        // the block type is a type, and what was asked for a value
        match self.blocks {
            Blocks::Commands => read_by::<Command>(self.end, frame).map(Meaning::from),
            Blocks::Readings => read_by::<Reading>(self.end, frame).map(Meaning::from),
        }
    }

    // What is told of a frame, malformed or not.
    pub fn hear(self, frame: Frame) -> Explained
        ensures { result.0 ≡ told_of (meaning_of self frame) }
    {
        Explained(self.try_hear(frame).map_err(Unread::from))
    }
}
