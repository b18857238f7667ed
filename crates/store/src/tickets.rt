// The ticket of a change. It cannot be copied or let go: every way out of a function that has one commits or abandons it.
ghost use Rattle.std.specs.Prelude.{◌≡◌};

pub struct Ticket {
    pub(crate) number: u32,
}

impl Ticket {
    // The number by which the ticket is known.
    pub fn number(&self) -> u32
        ensures { result ≡ self.now.number }
    {
        self.number
    }
}
