// What the sender accepts: a block, or the end mark that follows the last block.
// Not an `Option`: the end mark is an entry, and a place of the receiver's store holds one or none.
#[derive(Clone, Copy)]
pub enum Entry<B> {
    Block(B),
    EndMark,
}
