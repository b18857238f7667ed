// How an image is opened, and how its buffer is handed back.
ghost use Rattle.std.specs.Prelude.{◌≡◌, MatchResult};
ghost use Rattle.image.specs.ImageOpening.{image_bytes, open_number};
ghost use Rattle.image.specs.ImageStates.{open_refusal};

use crate::image_checks::{OpenFault, check_image};
use crate::images::Image;

// A buffer that holds no image, and why.
// kept: not one type with the simulator's `NotMade`: two fields whose names say what was refused and handed back.
#[derive(Drop)]
pub struct NotOpened {
    pub fault: OpenFault,
    pub bytes: Vec<u8>,
}

impl Image {
    // The image that a buffer holds; the buffer comes back untouched where it is refused.
    pub fn open(bytes: Vec<u8>) -> Result<Image, NotOpened>
        ensures refusal { MatchResult result (λ _. open_refusal bytes.items ≡ 0) (λ e. open_number e.fault ≡ open_refusal bytes.items) }
        ensures held { MatchResult result (λ m. image_bytes m ≡ bytes.items) (λ e. e.bytes ≡ bytes) }
    {
        // kept: a match: the buffer moves into the image or into the error, so closures for both would each take it.
        match check_image(&bytes) {
            Ok(()) => Ok(Image { bytes }),
            Err(fault) => Err(NotOpened { fault, bytes }),
        }
    }

    // The buffer as the calls left it; it can be opened again.
    pub fn into_bytes(self) -> Vec<u8>
        ensures held { result.items ≡ image_bytes self }
        ensures opens { open_refusal result.items ≡ 0 }
    {
        self.bytes
    }
}
