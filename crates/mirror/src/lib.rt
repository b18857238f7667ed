// Two flashes of any kinds that hold the same.
#![tactic(auto)]

pub mod mirror_faults;
pub mod mirrors;

pub use mirror_faults::MirrorFault;
pub use mirrors::Mirror;
