// A store that was never used, on a simulator with a plan.
ghost use Rattle.std.specs.Prelude.{◌≡◌, ◌<◌, length, IfOk};
ghost use Rattle.simulator.specs.SimulatorStates.{state_of, new_simulator};
ghost use Rattle.runs.specs.States.{store_state};
ghost use Rattle.every_cut.specs.Cases.{with_power_up, BlankStore};

use crate::ways::{Case, Left};
use flash::interface::Flash;
use flash::planned::Planned;
use flash::plans::PlanEntry;
use flash::units::Unit;
use simulator::Simulator;
use std::alloc::Global;
use store::stores::Store;

const BANKS: usize = 2;

const UNITS: usize = 64;

// A charge for every write but those that are to be cut.
const PLENTY: u32 = 1000;

// kept: a maker of its own, as in the other programs: they stand alone, and one maker for all would
// be a public function of the simulator more.
fn blank_simulator(heap: Global) -> anyhow::Result<Simulator>
    ensures { IfOk result (λ simulator. state_of simulator ≡ new_simulator 2 64) }
{
    let table = vec![in heap; Unit::Blank; BANKS * UNITS]?;
    match Simulator::new(BANKS, UNITS, table) {
        Ok(simulator) => Ok(simulator),
        Err(_) => anyhow::bail!("no simulator"),
    }
}

// Adds what the next power-up brings.
fn plan(simulator: &mut Simulator, charge: u32, left: Left)
    requires { length (state_of simulator.old).plan.entries < 16 }
    ensures { state_of simulator.new ≡ with_power_up (state_of simulator.old) charge left }
{
    let _ = simulator.add_entry(PlanEntry {
        charge,
        residue: left.residue(),
        pattern: left.pattern(),
    });
}

// A store on a simulator of blank units, with what its three power-ups bring: those of the format
// and of the last recover plenty.
pub fn blank_store(heap: Global, case: Case) -> anyhow::Result<Store<Simulator>>
    ensures { IfOk result (λ store.
        BlankStore case (store_state ⟦<Simulator as Flash>⟧ store)) }
{
    let mut simulator = blank_simulator(heap)?;
    plan(&mut simulator, PLENTY, case.left);
    plan(&mut simulator, case.charge, case.left);
    plan(&mut simulator, PLENTY, case.left);
    Ok(Store::new(simulator, 1))
}
