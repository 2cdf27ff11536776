// Where the reading of a script stands.
#[derive(Clone, Copy)]
pub enum Phase {
    // fewer than five terms so far
    Terms,
    // the next word is a call
    Calls,
    // the next word is the first of the command of the offer at this place
    First(u32),
    // the next word is the second, after this one
    Second(u32, u32),
    // the end was called
    Ended,
    // the word at this place is bad; a phase and no error, since the calls before it still count
    Bad(u32),
}
