// The units of the coefficient store: the catalogue, the codec and lists of pairs.
#![tactic(auto)]

pub mod catalogue;
pub mod codec;
pub mod crc;
pub mod iter;
pub mod meanings;
pub mod merge;
pub mod pairs;
mod table;
