// How a simulator is made, and how its plan grows.
ghost use Rattle.std.specs.Prelude.{◌≡◌, vec_len, MatchResult};
ghost use Rattle.simulator.specs.Shapes.{make_refusal, shape_number};
ghost use Rattle.flash.specs.Plans.{Added};
ghost use Rattle.simulator.specs.SimulatorStates.{state_of, new_simulator, with_plan};

use crate::shapes::{ShapeFault, check_shape};
use crate::simulators::Simulator;
use arrayvec::ArrayVec;
use flash::planned::Planned;
use flash::plans::PlanEntry;
use flash::units::Unit;

// A table that no simulator was made on, and why.
// kept: not one type with the image's `NotOpened`: two fields whose names say what was refused and handed back.
#[derive(Drop)]
pub struct NotMade {
    pub fault: ShapeFault,
    pub table: Vec<Unit>,
}

impl Simulator {
    // A blank simulator on a table of units, off, with no charge and no plan; the table comes back untouched where it is refused.
    pub fn new(banks: usize, width: usize, mut table: Vec<Unit>) -> Result<Simulator, NotMade>
        ensures refusal { MatchResult result (λ _. make_refusal banks width (vec_len table) ≡ 0) (λ e. shape_number e.fault ≡ make_refusal banks width (vec_len table)) }
        ensures made { MatchResult result (λ s. state_of s ≡ new_simulator banks width) (λ e. e.table ≡ table) }
    {
        // kept: an `if let`: the table moves into the error, and a closure for `map_err` would take it from what follows.
        if let Err(fault) = check_shape(banks, width, table.len()) {
            return Err(NotMade { fault, table });
        }
        table.fill(Unit::Blank);
        Ok(Simulator {
            banks,
            width,
            table,
            on: false,
            entry: PlanEntry {
                charge: 0,
                residue: 2,
                pattern: 0,
            },
            plan: ArrayVec::new(),
            taken: 0,
        })
    }
}

impl Planned for Simulator {
    ghost most = { 16 };

    ghost added = { λ s e s'. state_of s' ≡ with_plan (state_of s) (state_of s').plan };

    fn add_entry(&mut self, entry: PlanEntry) -> Option<usize>
        ensures plan { Added 16 (state_of self.old).plan entry result (state_of self.new).plan }
        ensures state { state_of self.new ≡ with_plan (state_of self.old) (state_of self.new).plan }
    {
        self.plan.try_push(entry).ok()?;
        Some(self.plan.len())
    }
}
