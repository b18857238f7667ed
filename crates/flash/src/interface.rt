// What a flash is: its units, bank by bank, how many a bank has, whether it is on, its charge, its plan, and what each call does to them.
ghost use Rattle.std.specs.Prelude.{◌≡◌, ℕ, Bool, List, length};
ghost use Rattle.flash.specs.declared.units.Unit.{Unit as Cell};
ghost use Rattle.flash.specs.FlashState.{flash_state, WellFormed};
ghost use Rattle.flash.specs.Calls.{Read, Program, Erase, PoweredUp, Untouched};
ghost use Rattle.flash.specs.Plans.{Plan, taking};

use crate::faults::FlashFault;
use crate::units::Unit;

pub trait Flash {
    type Fault: FlashFault + Drop;

    // kept: four ghost members and not one state, as docs/DECISIONS.md has it.

    // What each unit holds, bank by bank.
    ghost units: { Self → List (List Cell) };

    // How many units a bank has, which `units` does not tell where there is no bank.
    ghost width: { Self → ℕ };

    ghost power: { Self → Bool };

    // How many writes it will still complete.
    ghost charge: { Self → ℕ };

    // The plan of its power-ups, an empty one of a kind that follows none.
    ghost plan: { Self → Plan };

    // What a power-up of just this kind makes of a flash: before it, and after it.
    ghost powered: { Self → Self → Type 0 };

    // What a program of just this kind makes of a flash, refused or not: the flash before it, its
    // bank, its unit and its value, and the flash after it.
    ghost programmed: { Self → ℕ → ℕ → ℕ → Self → Type 0 };

    // What an erase of just this kind makes of a flash, refused or not: the flash before it, its
    // bank, and the flash after it.
    ghost erased: { Self → ℕ → Self → Type 0 };

    // How many banks there are, which never changes.
    fn banks(&self) -> usize
        ensures count { result ≡ length (units self.now) };

    // How many units each bank has, which never changes.
    fn units_per_bank(&self) -> usize
        ensures count { result ≡ width self.now };

    // A unit's state; changes nothing. Refused with 21 when off, then with 22 when the bank or unit does not exist.
    // kept: bank and unit as two numbers: the two of the rule, told one by one; an erase names a bank alone.
    fn read(&self, bank: usize, unit: usize) -> Result<Unit, Self::Fault>
        ensures reads { Read Self.Fault.FlashFault (flash_state (units self.now) (width self.now) (power self.now) (charge self.now)) bank unit result };

    // Writes a value into a blank unit. Refused as a read, then with 23 when the unit is not blank, then cut with 24 at charge 0.
    fn program(&mut self, bank: usize, unit: usize, value: u64) -> Result<(), Self::Fault>
        ensures programs { Program Self.Fault.FlashFault (flash_state (units self.old) (width self.old) (power self.old) (charge self.old)) bank unit value (flash_state (units self.new) (width self.new) (power self.new) (charge self.new)) result }
        ensures untouched { Untouched Self.Fault.FlashFault self.old result self.new }
        ensures programmed { programmed self.old bank unit value self.new }
        ensures plan { plan self.new ≡ plan self.old };

    // Makes all units of a bank blank. Refused as a read, then cut with 24 at charge 0.
    fn erase(&mut self, bank: usize) -> Result<(), Self::Fault>
        ensures erases { Erase Self.Fault.FlashFault (flash_state (units self.old) (width self.old) (power self.old) (charge self.old)) bank (flash_state (units self.new) (width self.new) (power self.new) (charge self.new)) result }
        ensures untouched { Untouched Self.Fault.FlashFault self.old result self.new }
        ensures erased { erased self.old bank self.new }
        ensures plan { plan self.new ≡ plan self.old };

    // Turns the flash on, with a charge of the implementation's choice, as its kind has it; keeps all units; takes an entry of the plan; never refused.
    fn power_up(&mut self)
        ensures powers { PoweredUp (flash_state (units self.old) (width self.old) (power self.old) (charge self.old)) (flash_state (units self.new) (width self.new) (power self.new) (charge self.new)) }
        ensures powered { powered self.old self.new }
        ensures plan { plan self.new ≡ taking (plan self.old) };

    // Every bank has `width` units, there are at most 4096, the charge fits 32 bits and every value 64.
    ghost formed: { (f : Self) → WellFormed (flash_state (units f) (width f) (power f) (charge f)) };
}
