// The lines that a script prints.
#![tactic(auto)]

mod line;

pub use line::Line;
