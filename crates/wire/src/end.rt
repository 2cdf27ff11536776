// The two ends of a path, and which frames each takes.
ghost use Rattle.std.specs.Prelude.{◌≡◌, IfOk, IfErr};
ghost use Rattle.wire.specs.Ends.{checked_of, taken_of, Takes};
ghost use Rattle.wire.specs.FirstFault.{First};
ghost use Rattle.wire.specs.Frames.{frame_of};

use crate::block::Block;
use crate::content::{Content, Head};
use crate::frame::Frame;
use refusal::Fault;

#[derive(Clone, Copy)]
pub enum Side {
    // takes acknowledgements
    Sender,
    // takes data and end marks
    Receiver,
}

#[derive(Clone, Copy)]
pub struct End {
    pub side: Side,
    // N, how many cyclic numbers there are
    pub numbers: u32,
}

impl End {
    // Refuses a kind that this end does not take, and then a number that is not below N.
    pub fn check(self, head: Head) -> Result<(), Fault>
        ensures { result ≡ checked_of self head }
    {
        // an arm for each pair that is taken
        let number = match (self.side, head) {
            (Side::Sender, Head::Acknowledgement { number, .. }) => number,
            (Side::Receiver, Head::Data { number }) => number,
            (Side::Receiver, Head::EndMark { number }) => number,
            _ => return Err(Fault::kind_not_taken()),
        };
        if u32::from(number) < self.numbers {
            Ok(())
        } else {
            Err(Fault::number_too_large())
        }
    }

    // Reads a frame that came to this end.
    pub fn read<B: Block>(self, frame: Frame) -> Result<Content<B>, Fault>
        ensures value { result ≡ taken_of self B.reads frame }
        ensures again { IfOk result (λ c. (frame_of B.written c ≡ frame) × Takes self c) }
        ensures first { IfErr result (First self B.reads frame) }
    {
        self.taken(frame)
    }

    // The head first, then this end's own checks, then the block.
    fn taken<B: Block>(self, frame: Frame) -> Result<Content<B>, Fault>
        ensures value { result ≡ taken_of self B.reads frame }
        ensures again { IfOk result (λ c. (frame_of B.written c ≡ frame) × Takes self c) }
    {
        let head = frame.head()?;
        self.check(head)?;
        frame.below(head)
    }
}
