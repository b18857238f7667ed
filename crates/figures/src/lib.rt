// The worked figures, and the datasheet's coefficients as pairs.
#![tactic(auto)]

pub mod example;
