// The lines of a session: their words and numbers, the commands that they give, and the text of answers.
#![tactic(auto)]

pub mod answers;
pub mod commands;
pub mod inputs;
pub mod numbers;
pub mod outputs;
#[cfg(test)]
mod tests;
pub mod tokens;
