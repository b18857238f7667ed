// The fault of a kind of flash that has no layer below it.
ghost use Rattle.std.specs.Prelude.{◌≡◌, ℕ, List};
ghost use Rattle.flash.specs.Causes.{cause_number, cause_place, cause_of};

use crate::causes::{Cause, Why};
use crate::faults::{FlashFault, Place};
use std::fmt;
use std::marker::PhantomData;

// A marker type for each such kind, which names its layer.
pub trait Layer {
    // The name as ASCII codes.
    ghost name: { List ℕ };

    fn name() -> &'static str
        ensures { result.now ≡ name };

    // What `{:?}` calls the fault of the kind.
    fn fault() -> &'static str {
        "OwnFault"
    }
}

// Each kind's fault is a type of its own by `L`.
#[derive(Clone, Copy, PartialEq, Eq)]
pub struct OwnFault<L> {
    pub cause: Cause,
    layer: PhantomData<L>,
}

impl<L> OwnFault<L> {
    pub fn new(why: Why, bank: usize, unit: Option<usize>) -> OwnFault<L>
        ensures { result.cause ≡ cause_of why bank unit }
    {
        OwnFault {
            cause: Cause::new(why, bank, unit),
            layer: PhantomData,
        }
    }
}

impl<L: Layer> FlashFault for OwnFault<L> {
    ghost layer = { L.name };

    ghost number = { λ e. cause_number e.cause };

    ghost place = { λ e. cause_place e.cause };

    fn number(&self) -> u8 {
        self.cause.number()
    }

    fn layer(&self) -> &'static str {
        L::name()
    }

    fn place(&self) -> Place {
        self.cause.place()
    }
}

// By hand: a derive would print the marker in place of the kind.
impl<L: Layer> fmt::Debug for OwnFault<L> {
    fn fmt<W: fmt::Write>(&self, f: &mut fmt::Formatter<W>) -> fmt::Result {
        f.debug_struct(L::fault())
            .field("cause", &self.cause)
            .finish()
    }
}
