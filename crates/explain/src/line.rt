// One line of a capture, explained.
ghost use Rattle.std.specs.Prelude.{◌≡◌, Some};
ghost use Rattle.explain.specs.Texts.{explained_of, explained_text, unread_text};
ghost use Rattle.explain.specs.declared.line.Unread.TheVariants.{Malformed};

use crate::hex::frame_in;
use crate::meaning::{Listener, Meaning};
use crate::text::Plain;
use std::fmt;
use wire::Fault;

// Why a line says nothing.
#[derive(Clone, Copy)]
pub enum Unread {
    Malformed(Fault),
    // the number of a line that is no frame
    NoFrame(u64),
}

impl From<Fault> for Unread {
    ghost from_gives = { λ x y. y ≡ Malformed x };

    fn from(fault: Fault) -> Self {
        Self::Malformed(fault)
    }
}

// What is told of a line or a frame, whatever it is: what it says, or why it says nothing.
#[derive(Clone, Copy)]
pub struct Explained(pub Result<Meaning, Unread>);

// What a line of a capture says to a listener.
pub fn try_explain(listener: Listener, place: u64, line: &[u8]) -> Result<Meaning, Unread>
    ensures { result ≡ explained_of listener place line.now }
{
    let frame = frame_in(line).ok_or(Unread::NoFrame(place))?;
    Ok(listener.try_hear(frame)?)
}

// What is told of a line of a capture. This cannot fail: a line that says nothing is explained too.
pub fn explain(listener: Listener, place: u64, line: &[u8]) -> Explained
    ensures { result.0 ≡ explained_of listener place line.now }
{
    Explained(try_explain(listener, place, line))
}

impl fmt::Display for Explained {
    ghost output = { λ e. Some (explained_text e) };

    fn fmt<W: fmt::Write>(&self, f: &mut fmt::Formatter<W>) -> fmt::Result {
        match self.0 {
            Ok(meaning) => write!(f, "{meaning}"),
            Err(unread) => write!(f, "{unread}"),
        }
    }
}

impl fmt::Display for Unread {
    ghost output = { λ e. Some (unread_text e) };

    fn fmt<W: fmt::Write>(&self, f: &mut fmt::Formatter<W>) -> fmt::Result {
        match *self {
            Unread::Malformed(fault) => write!(f, "malformed: {}", Plain(fault)),
            Unread::NoFrame(place) => {
                write!(
                    f,
                    "line {place}: no frame (three words of eight hexadecimal digits)"
                )
            }
        }
    }
}
