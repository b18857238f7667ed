// The check before a simulator is made.
ghost use Rattle.std.specs.Prelude.{◌≡◌, ◌<◌, MatchResult};
ghost use Rattle.simulator.specs.Shapes.{make_refusal, shape_number};

use flash::shapes::shape_fits;

// Why no simulator was made: its shape, or a table of another length.
// kept: not one enum with the image's `OpenFault`, in which this check would name a mark that a table does not have.
#[derive(Clone, Copy, PartialEq, Eq, Debug)]
pub enum ShapeFault {
    Shape,
    Length,
}

impl ShapeFault {
    // kept: a match; as discriminants of the enum a number given twice would not compile, and the edit that gives one twice could show nothing.
    pub fn number(&self) -> u8
        ensures { result ≡ shape_number self.now }
    {
        match self {
            ShapeFault::Shape => 32,
            ShapeFault::Length => 33,
        }
    }
}

// The check before a simulator of `banks` banks of `width` units is made on a table of `size` units.
pub fn check_shape(banks: usize, width: usize, size: usize) -> Result<(), ShapeFault>
    ensures { MatchResult result (λ _. make_refusal banks width size ≡ 0) (λ e. shape_number e ≡ make_refusal banks width size) }
{
    if !shape_fits(banks, width) {
        return Err(ShapeFault::Shape);
    }
    if size != banks * width {
        return Err(ShapeFault::Length);
    }
    Ok(())
}
