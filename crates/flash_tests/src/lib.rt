// Tests of the flashes, alone and stacked.
#![tactic(auto)]

#[cfg(test)]
mod images;
#[cfg(test)]
mod mirrors;
#[cfg(test)]
mod shared;
#[cfg(test)]
mod simulators;
