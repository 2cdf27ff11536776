// The frames that a path puts, and what it reads of those that it finds.
ghost use Rattle.std.specs.Prelude.{◌≡◌, ◌≤◌};
ghost use Rattle.path.specs.Steps.{entry_frame, acknowledgement, cyclic_in, window_in, number_in, entry_in};

use crate::entry::Entry;
use wire::{Block, Command, Content, Frame, Head, Terms, Window};

// The frame of an entry under a whole number.
pub(crate) fn entry_frame<B: Block>(terms: Terms, whole: u64, entry: Entry<B>) -> Frame
    ensures { result ≡ entry_frame B.Block.written terms.numbers whole entry }
{
    let number = terms.cyclic(whole);
    match entry {
        Entry::Block(block) => (Content::Data { number, block }).write(),
        Entry::EndMark => (Content::<B>::EndMark { number }).write(),
    }
}

// The acknowledgement of a whole number with a window. It carries no block, so any block type serves.
pub(crate) fn acknowledgement(terms: Terms, whole: u64, room: u16) -> Frame
    requires { room ≤ 4096 }
    ensures { result ≡ acknowledgement terms.numbers whole room }
{
    let number = terms.cyclic(whole);
    let window = Window::new(room);
    (Content::<Command>::Acknowledgement { number, window }).write()
}

// The cyclic number and the window in a head. Heads with no window do not come here, since the sender's end refuses them; a type of the others would be one more beside `Head`.
pub(crate) fn told(head: Head) -> (u16, u16)
    ensures number { result.0 ≡ cyclic_in head }
    ensures window { result.1 ≡ window_in head }
{
    match head {
        Head::Acknowledgement { number, window } => (number, window.size()),
        Head::Data { number } | Head::EndMark { number } => (number, 0),
    }
}

// The cyclic number and the entry in a content. No acknowledgement comes here, since the receiver's end refuses it; a type of the others would be one more beside `Content`.
pub(crate) fn carried<B: Block>(content: Content<B>) -> (u16, Entry<B>)
    ensures number { result.0 ≡ number_in content }
    ensures entry { result.1 ≡ entry_in content }
{
    match content {
        Content::Data { number, block } => (number, Entry::Block(block)),
        Content::Acknowledgement { number, .. } | Content::EndMark { number } => {
            (number, Entry::EndMark)
        }
    }
}
