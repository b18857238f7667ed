// The simulator is a flash.
ghost use Rattle.std.specs.Prelude.{◌≡◌, ◌+◌, ◌*◌, ◌<◌, ◌≤◌, vec_len};
ghost use Rattle.flash.specs.Calls.{Program, Erase, PoweredUp, Untouched};
ghost use Rattle.simulator.specs.Tables.{rows};
ghost use Rattle.simulator.specs.SimulatorStates.{state_of, flash_of, paid, turned_off, next_entry, after_power_up, after_program, after_erase};
ghost use Rattle.simulator.specs.Formed.{table_formed, items, full_of};

use crate::residues::{cut_erase, program_residue};
use crate::simulator_faults::SimulatorFault;
use crate::simulators::Simulator;
use flash::causes::Why;
use flash::faults::FlashFault;
use flash::interface::Flash;
use flash::plans::PlanEntry;
use flash::units::Unit;
use std::ops::Range;

impl Simulator {
    // The entry that the next power-up takes.
    fn next_entry(&self) -> PlanEntry
        ensures { result ≡ next_entry (state_of self.now).plan }
    {
        self.plan.get(self.taken).copied().unwrap_or(PlanEntry {
            charge: u32::MAX,
            residue: 2,
            pattern: 0,
        })
    }

    // Where the units of a bank stand in the table.
    fn units_of(&self, bank: usize) -> Range<usize>
        requires { bank < self.now.banks }
        ensures start { result.start ≡ bank * self.now.width }
        ensures end { result.end ≡ bank * self.now.width + self.now.width }
        ensures inside { result.end ≤ vec_len self.now.table }
    {
        let start = bank * self.width;
        start..start + self.width
    }

    // A completed write costs one.
    fn pay(&mut self)
        requires { 0 < self.old.entry.charge }
        ensures { state_of self.new ≡ paid (state_of self.old) }
    {
        self.entry.charge -= 1;
    }

    // A cut turns the flash off.
    fn turn_off(&mut self)
        ensures { state_of self.new ≡ turned_off (state_of self.old) }
    {
        self.on = false;
    }
}

impl Flash for Simulator {
    type Fault = SimulatorFault;

    ghost units = { λ s. rows s.banks s.width s.table.items };

    ghost width = { λ s. s.width };

    ghost power = { λ s. s.on };

    ghost charge = { λ s. s.entry.charge };

    ghost plan = { λ s. (state_of s).plan };

    ghost powered = { λ s s'. state_of s' ≡ after_power_up (state_of s) };

    ghost programmed = { λ s b u v s'. state_of s' ≡ after_program (state_of s) b u v };

    ghost erased = { λ s b s'. state_of s' ≡ after_erase (state_of s) b };

    ghost formed = { λ s. table_formed s.banks s.width (items s) s.on s.entry.charge (full_of s) s.shape.3 s.fits s.values };

    fn banks(&self) -> usize {
        self.banks
    }

    fn units_per_bank(&self) -> usize {
        self.width
    }

    // kept: each kind of flash asks its own state whether it is on and has the place, here and in `erase`: a gate for both calls would take an optional
    // unit, and want a definition between `read_refusal` and `erase_refusal`, of which the meaning of a flash has two.
    fn read(&self, bank: usize, unit: usize) -> Result<Unit, SimulatorFault> {
        if !self.on {
            return Err(SimulatorFault::new(Why::Off, bank, Some(unit)));
        }
        if bank >= self.banks || unit >= self.width {
            return Err(SimulatorFault::new(Why::Missing, bank, Some(unit)));
        }
        Ok(self.table[bank * self.width + unit])
    }

    fn program(&mut self, bank: usize, unit: usize, value: u64) -> Result<(), SimulatorFault>
        ensures programs { Program ⟦<SimulatorFault as FlashFault>⟧ (flash_of (state_of self.old)) bank unit value (flash_of (state_of self.new)) result }
        ensures untouched { Untouched ⟦<SimulatorFault as FlashFault>⟧ self.old result self.new }
        ensures state { state_of self.new ≡ after_program (state_of self.old) bank unit value }
    {
        if self.read(bank, unit)? != Unit::Blank {
            return Err(SimulatorFault::new(Why::NotBlank, bank, Some(unit)));
        }
        let at = bank * self.width + unit;
        if self.entry.charge == 0 {
            self.table[at] = program_residue(self.entry.residue, value);
            self.turn_off();
            return Err(SimulatorFault::new(Why::Cut, bank, Some(unit)));
        }
        self.table[at] = Unit::Programmed(value);
        self.pay();
        Ok(())
    }

    // kept: the gate of `read` once more, for the reason given there; here no unit is asked for, and the fault has none.
    fn erase(&mut self, bank: usize) -> Result<(), SimulatorFault>
        ensures erases { Erase ⟦<SimulatorFault as FlashFault>⟧ (flash_of (state_of self.old)) bank (flash_of (state_of self.new)) result }
        ensures untouched { Untouched ⟦<SimulatorFault as FlashFault>⟧ self.old result self.new }
        ensures state { state_of self.new ≡ after_erase (state_of self.old) bank }
    {
        if !self.on {
            return Err(SimulatorFault::new(Why::Off, bank, None));
        }
        if bank >= self.banks {
            return Err(SimulatorFault::new(Why::Missing, bank, None));
        }
        let units = self.units_of(bank);
        if self.entry.charge == 0 {
            cut_erase(&mut self.table[units], self.entry.pattern);
            self.turn_off();
            return Err(SimulatorFault::new(Why::Cut, bank, None));
        }
        self.table[units].fill(Unit::Blank);
        self.pay();
        Ok(())
    }

    fn power_up(&mut self)
        ensures powers { PoweredUp (flash_of (state_of self.old)) (flash_of (state_of self.new)) }
        ensures state { state_of self.new ≡ after_power_up (state_of self.old) }
    {
        self.entry = self.next_entry();
        if self.taken < self.plan.len() {
            self.taken += 1;
        }
        self.on = true;
    }
}
