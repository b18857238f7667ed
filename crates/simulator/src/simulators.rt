// A flash in memory whose power-ups follow a plan.
ghost use Rattle.std.specs.Prelude.{◌≡◌, ◌*◌, ◌^◌, ◌<◌, ◌≤◌, true, vec_len};
ghost use Rattle.arrayvec.specs.ArrayVec.{array_vec_len};
ghost use Rattle.simulator.specs.Tables.{values_fit};

use arrayvec::ArrayVec;
use flash::plans::PlanEntry;
use flash::units::Unit;

// How many entries a plan can have: they lie in the simulator itself, so that adding one needs no memory.
const PLAN_LIMIT: usize = 16;

// The table holds the units bank by bank. `entry` is what the last power-up set, its charge less the writes since;
// `taken` entries of the plan were taken by power-ups.
// kept: `banks` and `width` beside the table: one table, which the caller hands in, as no bank is to ask for memory.
// kept: `taken` beside the plan: the entries taken count for its limit and for what `add_entry` answers, so that none can leave it.
#[derive(Drop)]
pub struct Simulator {
    banks: usize,
    width: usize,
    table: Vec<Unit>,
    on: bool,
    entry: PlanEntry,
    plan: ArrayVec<PlanEntry, PLAN_LIMIT>,
    taken: usize,
    ghost shape: { (0 < banks) × (banks ≤ 16) × (0 < width) × (banks * width ≤ 4096) },
    ghost filled: { vec_len table ≡ banks * width },
    ghost fits: { entry.charge < 2 ^ 32 },
    ghost values: { values_fit table.items ≡ true },
    ghost places: { taken ≤ array_vec_len plan },
}

pub mod calls;
pub mod makes;
