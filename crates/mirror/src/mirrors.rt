// Two flashes of any kinds that hold the same.
ghost use Rattle.std.specs.Prelude.{◌≡◌, min, ◌&&◌};
ghost use Rattle.flash.specs.FlashState.{flash_state};
ghost use Rattle.flash.specs.Seen.{seen};
ghost use Rattle.flash.specs.Calls.{Read, Program, Erase, PoweredUp, Untouched};
ghost use Rattle.flash.specs.Plans.{no_plan, taking};
ghost use Rattle.mirror.specs.Mirrored.{mixed, mixed_units, mirrored};
ghost use Rattle.mirror.specs.Formed.{mirrored_formed};
ghost use Rattle.mirror.specs.MirrorSides.{mirror_fault, ReadSides, ProgramSides, EraseSides, SideCuts, ProgramLeaves, EraseLeaves, ProgrammedInTurn, ErasedInTurn, SidesProgrammed, SidesErased, PlansKept, SidePoweredUp};

use crate::mirror_faults::MirrorFault;
use flash::causes::{Cause, Why};
use flash::faults::FlashFault;
use flash::interface::Flash;
use flash::units::Unit;

// What two units hold as one.
fn mix(a: Unit, b: Unit) -> Unit
    ensures { result ≡ mixed a b }
{
    match (a, b) {
        (Unit::Blank, Unit::Blank) => Unit::Blank,
        (Unit::Programmed(v), _) => Unit::Programmed(v),
        (Unit::Unreadable, Unit::Programmed(v)) => Unit::Programmed(v),
        _ => Unit::Unreadable,
    }
}

// Whether a flash is on, which any read tells.
fn is_on<F: Flash>(f: &F) -> bool
    ensures { result ≡ F.Flash.power f.now }
{
    match f.read(0, 0) {
        Ok(_) => true,
        // kept: of a fault of any kind only its number says that the flash is off.
        Err(e) => e.number() != 21,
    }
}

#[derive(Drop)]
pub struct Mirror<A, B> {
    first: A,
    second: B,
}

impl<A: Flash, B: Flash> Mirror<A, B> {
    // A mirror of two flashes, as they are.
    pub fn new(first: A, second: B) -> Mirror<A, B>
        ensures { (result.first ≡ first) × (result.second ≡ second) }
    {
        Mirror { first, second }
    }

    // The two flashes again, as they are.
    pub fn into_sides(self) -> (A, B)
        ensures { result ≡ (self.first, self.second) }
    {
        let Mirror { first, second } = self;
        (first, second)
    }

    // Programs the first side, and the second only if that completed.
    fn program_sides(
        &mut self,
        bank: usize,
        unit: usize,
        value: u64,
    ) -> Result<(), MirrorFault<A::Fault, B::Fault>>
        ensures sides { ProgramSides A.Fault.FlashFault B.Fault.FlashFault (seen A.Flash self.old.first) (seen B.Flash self.old.second) (seen A.Flash self.new.first) (seen B.Flash self.new.second) bank unit value result }
        ensures programmed { ProgrammedInTurn A.Flash B.Flash self.old.first self.old.second
            bank unit value self.new.first self.new.second }
        ensures left { ProgramLeaves self.old.first self.old.second self.new.first self.new.second result }
        ensures plans { (A.Flash.plan self.new.first ≡ A.Flash.plan self.old.first) × (B.Flash.plan self.new.second ≡ B.Flash.plan self.old.second) }
    {
        let place = (bank, Some(unit));
        self.first
            .program(bank, unit, value)
            .map_err(|e| MirrorFault::First(place, e))?;
        self.second
            .program(bank, unit, value)
            .map_err(|e| MirrorFault::Second(place, e))
    }

    // Erases a bank of the second side, and of the first only if that completed.
    fn erase_sides(&mut self, bank: usize) -> Result<(), MirrorFault<A::Fault, B::Fault>>
        ensures sides { EraseSides A.Fault.FlashFault B.Fault.FlashFault (seen A.Flash self.old.first) (seen B.Flash self.old.second) (seen A.Flash self.new.first) (seen B.Flash self.new.second) bank result }
        ensures erased { ErasedInTurn A.Flash B.Flash self.old.first self.old.second
            bank self.new.first self.new.second }
        ensures left { EraseLeaves self.old.first self.old.second self.new.first self.new.second result }
        ensures plans { (A.Flash.plan self.new.first ≡ A.Flash.plan self.old.first) × (B.Flash.plan self.new.second ≡ B.Flash.plan self.old.second) }
    {
        let place = (bank, None);
        self.second
            .erase(bank)
            .map_err(|e| MirrorFault::Second(place, e))?;
        self.first
            .erase(bank)
            .map_err(|e| MirrorFault::First(place, e))
    }
}

impl<A: Flash, B: Flash> Flash for Mirror<A, B> {
    type Fault = MirrorFault<A::Fault, B::Fault>;

    ghost units = { λ m. mixed_units (A.Flash.units m.first) (B.Flash.units m.second) };

    ghost width = { λ m. min (A.Flash.width m.first) (B.Flash.width m.second) };

    ghost power = { λ m. A.Flash.power m.first && B.Flash.power m.second };

    ghost charge = { λ m. min (A.Flash.charge m.first) (B.Flash.charge m.second) };

    // It follows no plan of its own; those of its sides go on.
    ghost plan = { λ m. no_plan };

    ghost powered = { λ m m'.
        SidePoweredUp A.Flash m.first m'.first × SidePoweredUp B.Flash m.second m'.second };

    ghost programmed = { λ m b u v m'.
        SidesProgrammed A.Flash B.Flash m.first m.second b u v m'.first m'.second
        × PlansKept A.Flash B.Flash m.first m.second m'.first m'.second };

    ghost erased = { λ m b m'.
        SidesErased A.Flash B.Flash m.first m.second b m'.first m'.second
        × PlansKept A.Flash B.Flash m.first m.second m'.first m'.second };

    ghost formed = { λ m. mirrored_formed (flash_state (A.units m.first) (A.width m.first) (A.power m.first) (A.charge m.first)) (flash_state (B.units m.second) (B.width m.second) (B.power m.second) (B.charge m.second)) (A.formed m.first) (B.formed m.second) };

    fn banks(&self) -> usize {
        self.first.banks().min(self.second.banks())
    }

    fn units_per_bank(&self) -> usize {
        self.first
            .units_per_bank()
            .min(self.second.units_per_bank())
    }

    // kept: each kind of flash asks its own state whether it is on and has the place, here and in `erase`: a gate for both calls would take an optional
    // unit, and want a definition between `read_refusal` and `erase_refusal`, of which the meaning of a flash has two.
    fn read(&self, bank: usize, unit: usize) -> Result<Unit, MirrorFault<A::Fault, B::Fault>>
        ensures reads { Read (mirror_fault A.Fault.FlashFault B.Fault.FlashFault) (mirrored (seen A.Flash self.now.first) (seen B.Flash self.now.second)) bank unit result }
        ensures sides { ReadSides (seen A.Flash self.now.first) (seen B.Flash self.now.second) bank unit result }
    {
        if !is_on(&self.first) || !is_on(&self.second) {
            return Err(MirrorFault::Own(Cause::new(Why::Off, bank, Some(unit))));
        }
        if bank >= self.banks() || unit >= self.units_per_bank() {
            return Err(MirrorFault::Own(Cause::new(Why::Missing, bank, Some(unit))));
        }
        let a = self
            .first
            .read(bank, unit)
            .map_err(|e| MirrorFault::First((bank, Some(unit)), e))?;
        let b = self
            .second
            .read(bank, unit)
            .map_err(|e| MirrorFault::Second((bank, Some(unit)), e))?;
        Ok(mix(a, b))
    }

    fn program(
        &mut self,
        bank: usize,
        unit: usize,
        value: u64,
    ) -> Result<(), MirrorFault<A::Fault, B::Fault>>
        ensures programs { Program (mirror_fault A.Fault.FlashFault B.Fault.FlashFault) (mirrored (seen A.Flash self.old.first) (seen B.Flash self.old.second)) bank unit value (mirrored (seen A.Flash self.new.first) (seen B.Flash self.new.second)) result }
        ensures sides { ProgramSides A.Fault.FlashFault B.Fault.FlashFault (seen A.Flash self.old.first) (seen B.Flash self.old.second) (seen A.Flash self.new.first) (seen B.Flash self.new.second) bank unit value result }
        ensures cuts { SideCuts A.Fault.FlashFault B.Fault.FlashFault result }
        ensures untouched { Untouched (mirror_fault A.Fault.FlashFault B.Fault.FlashFault)
            self.old result self.new }
        ensures programmed { SidesProgrammed A.Flash B.Flash self.old.first self.old.second
            bank unit value self.new.first self.new.second
            × PlansKept A.Flash B.Flash self.old.first self.old.second
            self.new.first self.new.second }
        ensures left { ProgramLeaves self.old.first self.old.second self.new.first self.new.second result }
        ensures plans { (A.Flash.plan self.new.first ≡ A.Flash.plan self.old.first) × (B.Flash.plan self.new.second ≡ B.Flash.plan self.old.second) }
    {
        match self.read(bank, unit)? {
            Unit::Blank => self.program_sides(bank, unit, value),
            _ => Err(MirrorFault::Own(Cause::new(Why::NotBlank, bank, Some(unit)))),
        }
    }

    // kept: the gate of `read` once more, for the reason given there; here no unit is asked for, and the fault has none.
    fn erase(&mut self, bank: usize) -> Result<(), MirrorFault<A::Fault, B::Fault>>
        ensures erases { Erase (mirror_fault A.Fault.FlashFault B.Fault.FlashFault) (mirrored (seen A.Flash self.old.first) (seen B.Flash self.old.second)) bank (mirrored (seen A.Flash self.new.first) (seen B.Flash self.new.second)) result }
        ensures sides { EraseSides A.Fault.FlashFault B.Fault.FlashFault (seen A.Flash self.old.first) (seen B.Flash self.old.second) (seen A.Flash self.new.first) (seen B.Flash self.new.second) bank result }
        ensures cuts { SideCuts A.Fault.FlashFault B.Fault.FlashFault result }
        ensures untouched { Untouched (mirror_fault A.Fault.FlashFault B.Fault.FlashFault)
            self.old result self.new }
        ensures erased { SidesErased A.Flash B.Flash self.old.first self.old.second
            bank self.new.first self.new.second
            × PlansKept A.Flash B.Flash self.old.first self.old.second
            self.new.first self.new.second }
        ensures left { EraseLeaves self.old.first self.old.second self.new.first self.new.second result }
        ensures plans { (A.Flash.plan self.new.first ≡ A.Flash.plan self.old.first) × (B.Flash.plan self.new.second ≡ B.Flash.plan self.old.second) }
    {
        if !is_on(&self.first) || !is_on(&self.second) {
            return Err(MirrorFault::Own(Cause::new(Why::Off, bank, None)));
        }
        if bank >= self.banks() {
            return Err(MirrorFault::Own(Cause::new(Why::Missing, bank, None)));
        }
        self.erase_sides(bank)
    }

    fn power_up(&mut self)
        ensures powers { PoweredUp (mirrored (seen A.Flash self.old.first) (seen B.Flash self.old.second)) (mirrored (seen A.Flash self.new.first) (seen B.Flash self.new.second)) }
        ensures powered { SidePoweredUp A.Flash self.old.first self.new.first
            × SidePoweredUp B.Flash self.old.second self.new.second }
        ensures first { PoweredUp (seen A.Flash self.old.first) (seen A.Flash self.new.first) }
        ensures second { PoweredUp (seen B.Flash self.old.second) (seen B.Flash self.new.second) }
        ensures plans { (A.Flash.plan self.new.first ≡ taking (A.Flash.plan self.old.first)) × (B.Flash.plan self.new.second ≡ taking (B.Flash.plan self.old.second)) }
    {
        self.first.power_up();
        self.second.power_up();
    }
}
