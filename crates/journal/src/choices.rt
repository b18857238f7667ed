// Which bank is active, and where a change goes.
ghost use Rattle.std.specs.Prelude.{◌≡◌, ◌+◌, nat_le};
ghost use Rattle.journal.specs.Commit.{other};
ghost use Rattle.journal.specs.Reading.{active_bank};

// By the numbers of the lawful headers of banks 0 and 1: the bank with the greater one, bank 0 at a tie.
// kept: a match: by the order of options, in which none is least, it is one line, where an edit of that order turns more than it names.
pub fn active_bank(first: Option<u32>, second: Option<u32>) -> Option<usize>
    ensures { result ≡ active_bank first second }
{
    match (first, second) {
        (None, None) => None,
        (Some(_), None) => Some(0),
        (None, Some(_)) => Some(1),
        (Some(x), Some(y)) => { if x < y { Some(1) } else { Some(0) } }
    }
}

// The other one of banks 0 and 1.
pub fn other_bank(bank: usize) -> usize
    ensures { result ≡ other bank }
{
    if bank == 0 { 1 } else { 0 }
}

// Whether a change of `count` pairs and its commit fit behind the end of a bank.
pub fn is_room(units: usize, end: usize, count: usize) -> bool
    ensures { result ≡ nat_le (end + count + 1) units }
{
    end <= units && count < units - end
}
