// A script of calls, run from its terms to its lines.
#![tactic(auto)]

mod running;

pub use decode::{BadWord, Decoder, Due, Kind, Phase};
pub use lines::Line;
pub use running::run;
