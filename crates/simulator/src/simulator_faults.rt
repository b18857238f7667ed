// The simulator's fault: it has no layer below.
ghost use Rattle.std.specs.Prelude.{codes};

use flash::own_faults::{Layer, OwnFault};

#[derive(Clone, Copy, PartialEq, Eq, Debug)]
pub struct SimulatorLayer;

impl Layer for SimulatorLayer {
    ghost name = { codes "simulator" };

    fn name() -> &'static str {
        "simulator"
    }

    fn fault() -> &'static str {
        "SimulatorFault"
    }
}

pub type SimulatorFault = OwnFault<SimulatorLayer>;
