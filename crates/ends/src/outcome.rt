// How a path ended. Not a `Result`: an unsure end is no refusal, and no `?` may pass over it.
#[derive(Clone, Copy)]
pub enum Outcome {
    // sealed, and every accepted entry was heard of
    Complete,
    // na, ns and ng as they stood
    Unsure {
        heard: u64,
        sent: u64,
        accepted: u64,
    },
}
