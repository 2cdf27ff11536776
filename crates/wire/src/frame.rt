// A frame: a head, and the words of a block below it.
ghost use Rattle.std.specs.Prelude.{◌≡◌, IfOk, if◌then◌else◌, Ok, Err, nat_eq};
ghost use Rattle.wire.specs.Ends.{Takes, taken_of};
ghost use Rattle.refusal.specs.Faults.{not_zero};
ghost use Rattle.wire.specs.Frames.{head_of, word_of, empty_of, frame_of, content_of};
ghost use Rattle.wire.specs.declared.end.End.{End as Where};

use crate::block::Block;
use crate::content::{Content, Head};
use crate::window::Window;
use crate::words::Words;
use refusal::Fault;

#[derive(Clone, Copy)]
pub struct Frame {
    pub head: u32,
    pub words: Words,
}

// Kinds as they stand in a head; read, they are the variants of `Head`.
const DATA: u32 = 0x4000_0000;

const ACKNOWLEDGEMENT: u32 = 0x8000_0000;

const END_MARK: u32 = 0xc000_0000;

// Refuses a value that must be zero and is not.
fn zero(value: u32, word: u8) -> Result<(), Fault>
    ensures { result ≡ (if nat_eq value 0 then Ok tt else Err (not_zero word)) }
{
    if value == 0 {
        Ok(())
    } else {
        Err(Fault::not_zero(word))
    }
}

impl Words {
    // What stands below a head with no block.
    pub const ZERO: Words = Words {
        first: 0,
        second: 0,
    };

    // Refuses words that must be zero and are not, by the first such word.
    fn empty(self) -> Result<(), Fault>
        ensures { result ≡ empty_of self (Ok tt) }
    {
        zero(self.first, 1)?;
        zero(self.second, 2)
    }
}

// Methods and no `TryFrom`, and `write` below no `From`: what they promise has parts, each with its name.
impl Frame {
    // Reads the head, and refuses bits that must be zero and are not.
    pub fn head(self) -> Result<Head, Fault>
        ensures value { result ≡ head_of self }
        ensures again { IfOk result (λ h. word_of h ≡ self.head) }
    {
        let number = (self.head % 0x1_0000) as u16;
        let middle = self.head % 0x4000_0000 / 0x1_0000;
        match self.head >> 30 {
            0 => Err(Fault::no_kind()),
            1 => {
                zero(middle, 0)?;
                Ok(Head::Data { number })
            }
            2 => {
                self.words.empty()?;
                let window = Window::of_head(self.head);
                Ok(Head::Acknowledgement { number, window })
            }
            _ => {
                zero(middle, 0)?;
                self.words.empty()?;
                Ok(Head::EndMark { number })
            }
        }
    }

    // Reads the whole frame.
    pub fn content<B: Block>(self) -> Result<Content<B>, Fault>
        ensures value { result ≡ content_of B.reads self }
        ensures again { IfOk result (λ c. frame_of B.written c ≡ self) }
    {
        let head = self.head()?;
        self.below(head)
    }

    // Reads the words below a head that was read.
    pub(crate) fn below<B: Block>(self, head: Head) -> Result<Content<B>, Fault>
        requires { (head_of self ≡ Ok head) × (word_of head ≡ self.head) }
        ensures value { result ≡ content_of B.reads self }
        ensures again { IfOk result (λ c. frame_of B.written c ≡ self) }
    {
        match head {
            Head::Data { number } => {
                let block = B::from_words(self.words)?;
                Ok(Content::Data { number, block })
            }
            Head::Acknowledgement { number, window } => {
                Ok(Content::Acknowledgement { number, window })
            }
            Head::EndMark { number } => Ok(Content::EndMark { number }),
        }
    }
}

impl<B: Block> Content<B> {
    pub fn write(self) -> Frame
        ensures value { result ≡ frame_of B.written self }
        ensures back { content_of B.reads result ≡ Ok self }
        ensures taken { (e : Where) → Takes e self → taken_of e B.reads result ≡ Ok self }
    {
        match self {
            Content::Data { number, block } => Frame {
                head: DATA + u32::from(number),
                words: block.words(),
            },
            Content::Acknowledgement { number, window } => Frame {
                head: ACKNOWLEDGEMENT + window.in_head() + u32::from(number),
                words: Words::ZERO,
            },
            Content::EndMark { number } => Frame {
                head: END_MARK + u32::from(number),
                words: Words::ZERO,
            },
        }
    }
}
