// The calibration that the coefficients of a store give.
#![tactic(auto)]

pub mod gathered;
