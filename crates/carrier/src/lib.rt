// What a line of radio means, lists of records in lent slices, and the carrier that keeps a frame and its age in each.
#![tactic(auto)]

mod carrier;
mod lifetime;
mod records;
mod shelf;

pub use carrier::Carrier;
pub use lifetime::Lifetime;
pub use records::{Records, Stays};
pub use shelf::{Shelf, Slot};
