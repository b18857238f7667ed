// The mirror's fault: a refusal of its own, or a side's fault, held whole.
ghost use Rattle.std.specs.Prelude.{codes};
ghost use Rattle.mirror.specs.MirrorFaults.{mirror_number, mirror_place};

use flash::causes::Cause;
use flash::faults::{FlashFault, Place};

// A side's fault stands behind its place as the mirror counts it.
#[derive(Clone, Copy, Drop)]
pub enum MirrorFault<E, F> {
    Own(Cause),
    First(Place, E),
    Second(Place, F),
}

impl<E: FlashFault, F: FlashFault> FlashFault for MirrorFault<E, F> {
    ghost layer = { codes "mirror" };

    ghost number = { λ e. mirror_number E.FlashFault F.FlashFault e };

    ghost place = { λ e. mirror_place e };

    fn number(&self) -> u8 {
        match self {
            MirrorFault::Own(cause) => cause.number(),
            MirrorFault::First(_, fault) => fault.number(),
            MirrorFault::Second(_, fault) => fault.number(),
        }
    }

    fn layer(&self) -> &'static str {
        "mirror"
    }

    fn place(&self) -> Place {
        match self {
            MirrorFault::Own(cause) => cause.place(),
            MirrorFault::First(place, _) | MirrorFault::Second(place, _) => *place,
        }
    }
}
