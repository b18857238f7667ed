// Whole runs: a list of calls made one after the other on a store.
#![tactic(auto)]

mod hands;
pub mod requests;
pub mod rooms;
pub mod running;
