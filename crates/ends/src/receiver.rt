// The receiver's numbers. Entries are counted from 0. A step that takes `&mut self` says that the terms stay, as the sender's do.
ghost use Rattle.std.specs.Prelude.{◌+◌, ◌≤◌};

use wire::Terms;

#[derive(Clone, Copy)]
pub struct Receiver {
    pub terms: Terms,
    // how many entries are in sequence: every lower one is there
    pub nr: u64,
    // how many of them were delivered
    pub nd: u64,
    ghost order: { (nd ≤ nr) × (nr ≤ 1000001) × (nr ≤ nd + terms.receive_window) },
}
