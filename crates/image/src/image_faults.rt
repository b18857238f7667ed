// The image's fault: it has no layer below.
ghost use Rattle.std.specs.Prelude.{codes};

use flash::own_faults::{Layer, OwnFault};

#[derive(Clone, Copy, PartialEq, Eq, Debug)]
pub struct ImageLayer;

impl Layer for ImageLayer {
    ghost name = { codes "image" };

    fn name() -> &'static str {
        "image"
    }

    fn fault() -> &'static str {
        "ImageFault"
    }
}

pub type ImageFault = OwnFault<ImageLayer>;
