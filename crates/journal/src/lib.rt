// How the units of the store are read, and what a commit writes.
#![tactic(auto)]

pub mod changes;
mod choices;
mod logs;
pub mod reading;
pub mod standing;
mod views;
pub mod writers;
