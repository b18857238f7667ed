// A session with a store: what each line does, what it answers, and what is held between lines.
#![tactic(auto)]

pub mod exchanges;
pub mod requests;
pub mod sessions;
#[cfg(test)]
mod tests;
