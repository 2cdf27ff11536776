// A path: both ends and both carriers, and the refusal of its making if there was one.
ghost use Rattle.std.specs.Prelude.{◌≡◌};

use ends::{Receiver, Sender};
use wire::Refusal;

// No model: its end gives back the carriers themselves, which a view of their lists could not name.
#[derive(Drop)]
pub struct Path<O, K> {
    pub(crate) refused: Option<Refusal>,
    pub(crate) sender: Sender,
    pub(crate) receiver: Receiver,
    pub(crate) out: O,
    pub(crate) back: K,
    // both ends go by the same terms
    ghost agreed: { (receiver.terms.numbers ≡ sender.terms.numbers) × (receiver.terms.receive_window ≡ sender.terms.receive_window) },
}
