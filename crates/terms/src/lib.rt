// What both ends of a path agree on.
#![tactic(auto)]

mod agreed;

pub use agreed::{Terms, least_numbers};
