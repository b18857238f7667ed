// The shapes that a flash kept in memory can have.
ghost use Rattle.std.specs.Prelude.{◌≡◌};
ghost use Rattle.flash.specs.Shapes.{shape_fits};

// Whether there are 1 to 16 banks of at least one unit each, and at most 4096 units.
// kept: two plain numbers; a type for a shape would have to be made, and could fail, before each question.
pub fn shape_fits(banks: usize, width: usize) -> bool
    ensures { result ≡ shape_fits banks width }
{
    (1..=16).contains(&banks) && width >= 1 && banks.saturating_mul(width) <= 4096
}
