// What a frame says.
use crate::window::Window;

#[derive(Clone, Copy)]
pub enum Content<B> {
    Data { number: u16, block: B },
    Acknowledgement { number: u16, window: Window },
    EndMark { number: u16 },
}

// What the head of a frame says, with the words below it still unread. As `Content<()>` its data would hold a block that nobody sent.
#[derive(Clone, Copy)]
pub enum Head {
    Data { number: u16 },
    Acknowledgement { number: u16, window: Window },
    EndMark { number: u16 },
}
