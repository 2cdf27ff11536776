// The calls of a path as values, and their answers.
use wire::Refusal;

#[derive(Clone, Copy)]
pub enum Call<B> {
    Offer(B),
    Seal,
    Send,
    // the entry so many past the lowest one that was not heard of
    Resend(u64),
    // a place in the outward carrier
    Arrive(u32),
    // a place in the carrier back
    Hear(u32),
    Deliver,
    Acknowledge,
    LoseOutward(u32),
    LoseBack(u32),
    Tick,
    Round,
}

// What a call answers that is accepted.
#[derive(Clone, Copy)]
pub enum Reply {
    Number(u64),
    // a frame that arrived and was not taken
    Ignored,
    Done,
}

// A call with its answer.
#[derive(Clone, Copy)]
pub struct Turn<B> {
    pub call: Call<B>,
    pub answer: Result<Reply, Refusal>,
}
