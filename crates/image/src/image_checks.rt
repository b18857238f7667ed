// The check before an image is opened.
ghost use Rattle.std.specs.Prelude.{◌≡◌, MatchResult};
ghost use Rattle.image.specs.ImageOpening.{open_number};
ghost use Rattle.image.specs.ImageStates.{open_refusal};

use crate::headers::{HEADER_SIZE, Header};
use crate::units::UNIT_SIZE;
use flash::shapes::shape_fits;

// Why bytes are no image: their mark or version, the numbers of banks and units, or the length.
// kept: not one enum with the simulator's `ShapeFault`, whose check would then name a mark that a table does not have.
#[derive(Clone, Copy, PartialEq, Eq, Debug)]
pub enum OpenFault {
    Mark,
    Shape,
    Length,
}

impl OpenFault {
    // kept: a match; as discriminants of the enum a number given twice would not compile, and the edit that gives one twice could show nothing.
    pub fn number(&self) -> u8
        ensures { result ≡ open_number self.now }
    {
        match self {
            OpenFault::Mark => 31,
            OpenFault::Shape => 32,
            OpenFault::Length => 33,
        }
    }
}

// The check before opening.
pub fn check_image(bytes: &[u8]) -> Result<(), OpenFault>
    ensures { MatchResult result (λ _. open_refusal bytes.now ≡ 0) (λ e. open_number e ≡ open_refusal bytes.now) }
{
    let header = Header::read(bytes).ok_or(OpenFault::Mark)?;
    if !shape_fits(header.banks, header.width) {
        return Err(OpenFault::Shape);
    }
    if bytes.len() != HEADER_SIZE + UNIT_SIZE * (header.banks * header.width) {
        return Err(OpenFault::Length);
    }
    Ok(())
}
