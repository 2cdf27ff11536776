// Window stores: entries by number over lent memory.
#![tactic(auto)]

mod store;
mod storing;

pub use store::WindowStore;
