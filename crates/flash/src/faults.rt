// What every fault of a flash gives: its number, the name of its layer, and the bank and unit as that layer counts them.
ghost use Rattle.std.specs.Prelude.{◌≡◌, ℕ, List, Option as Maybe};

// The bank, and the unit if the call named one.
pub type Place = (usize, Option<usize>);

pub trait FlashFault {
    // The name of the layer as ASCII codes: one for the whole type, so that no value can name another layer.
    ghost layer: { List ℕ };

    ghost number: { Self → ℕ };

    ghost place: { Self → ℕ × Maybe ℕ };

    fn number(&self) -> u8
        ensures { result ≡ number self.now };

    fn layer(&self) -> &'static str
        ensures { result.now ≡ layer };

    fn place(&self) -> Place
        ensures { result ≡ place self.now };
}
