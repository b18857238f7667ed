// What the simulator's cuts leave of its units.
ghost use Rattle.std.specs.Prelude.{◌≡◌};
ghost use Rattle.simulator.specs.Residues.{program_residue, unit_residue, bank_residue};

use flash::units::Unit;

// What a cut program of `value` leaves of its unit.
pub(crate) fn program_residue(residue: u8, value: u64) -> Unit
    ensures { result ≡ program_residue residue value }
{
    match residue {
        0 => Unit::Blank,
        1 => Unit::Programmed(value),
        _ => Unit::Unreadable,
    }
}

// What a cut erase leaves of unit u, which held x.
// kept: two bits of the pattern, which is a number, told by this one match.
fn unit_residue(pattern: u64, u: usize, x: Unit) -> Unit
    ensures { result ≡ unit_residue pattern u x }
{
    match (pattern >> (2 * (u % 32))) % 4 {
        0 => x,
        1 => Unit::Blank,
        _ => Unit::Unreadable,
    }
}

// Leaves the units of a bank as a cut erase does.
pub(crate) fn cut_erase(bank: &mut [Unit], pattern: u64)
    ensures { bank.new ≡ bank_residue pattern bank.old }
{
    for (u, x) in bank.iter_mut().enumerate() {
        *x = unit_residue(pattern, u, *x);
    }
}
