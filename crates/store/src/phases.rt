// What a store is doing, and what can be asked of it.
use layout::meanings::Pair;

// Cold: nothing is known of the units. Ready: the standing pairs are known. Changing: a change is open beside them.
#[derive(Clone, Copy, PartialEq, Eq, Debug)]
pub enum Phase {
    Cold,
    Ready,
    Changing { ticket: u32 },
}

// A call, as far as the phase has a say in it; the ticket is the number of the one that was shown. `Look` is every call that
// only looks at what stands.
// kept: the calls that change something, all but format, are listed in `Entry` as well, which has each call after a format with its answer; one type
// for both would hold answers before there are any.
#[derive(Clone, Copy, PartialEq, Eq, Debug)]
pub enum Event {
    Format,
    Recover,
    Begin,
    Put { ticket: u32, pair: Pair },
    Commit { ticket: u32 },
    Abandon { ticket: u32 },
    Look,
}
