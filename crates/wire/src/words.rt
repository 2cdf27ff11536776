// The words of a frame below its head: what a block is written as.
#[derive(Clone, Copy)]
pub struct Words {
    pub first: u32,
    pub second: u32,
}
