// The integer compensation of a BMP180 barometer: raw readings and calibration coefficients give degrees and pascals.
#![tactic(auto)]

pub mod calibration;
pub mod coefficients;
pub mod datasheet;
mod division;
mod pressure;
pub mod readings;
mod temperature;
#[cfg(test)]
mod tests;
pub mod text;
