// The store of coefficients over any flash: nine calls, and the law that ties them to what was called before.
#![tactic(auto)]

mod changes;
pub mod entries;
mod flashes;
pub mod phases;
pub mod refusals;
pub mod steps;
pub mod stores;
pub mod tickets;
mod worked;
