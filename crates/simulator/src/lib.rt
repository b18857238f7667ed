// A flash in memory whose power-ups follow a plan.
#![tactic(auto)]

mod residues;
pub mod shapes;
pub mod simulator_faults;
pub mod simulators;

pub use shapes::{ShapeFault, check_shape};
pub use simulator_faults::SimulatorFault;
pub use simulators::Simulator;
pub use simulators::makes::NotMade;
