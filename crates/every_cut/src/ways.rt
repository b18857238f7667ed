// What is tried: the ways in which the second calibration is committed, and the cuts in each.
ghost use Rattle.std.specs.Prelude.{◌≡◌, ◌++◌, OnOk, IfOk};
ghost use Rattle.every_cut.specs.Cases.{empty_of, writes_of, residue_of, pattern_of, cases_at, cases_of};

use std::alloc::{AllocError, Global};

// 11 records and a commit need 12 units: behind unit 51 they end with the bank. Behind unit 52 they
// do not fit: the other bank is erased, and gets 11 records and its header.
#[derive(Clone, Copy, PartialEq, Eq)]
pub enum Way {
    InPlace,
    OtherBank,
}

impl Way {
    pub fn name(self) -> &'static str {
        match self {
            Way::InPlace => "In place",
            Way::OtherBank => "To the other bank",
        }
    }

    // Behind how many empty commits the second calibration is committed.
    pub fn empty(self) -> u32
        ensures { result ≡ empty_of self }
    {
        match self {
            Way::InPlace => 3,
            Way::OtherBank => 4,
        }
    }

    // How many writes its commit needs.
    pub fn writes(self) -> u32
        ensures { result ≡ writes_of self }
    {
        match self {
            Way::InPlace => 12,
            Way::OtherBank => 13,
        }
    }
}

// What a cut leaves: of a unit that is programmed its residue, of a bank that is erased its
// pattern, two bits a unit.
#[derive(Clone, Copy, PartialEq, Eq)]
pub enum Left {
    Nothing,
    AllOfIt,
    Unreadable,
}

impl Left {
    pub const ALL: [Left; 3] = [Left::Nothing, Left::AllOfIt, Left::Unreadable];

    pub fn name(self) -> &'static str {
        match self {
            Left::Nothing => "nothing",
            Left::AllOfIt => "all of it",
            Left::Unreadable => "unreadable",
        }
    }

    pub fn residue(self) -> u8
        ensures { result ≡ residue_of self }
    {
        match self {
            Left::Nothing => 0,
            Left::AllOfIt => 1,
            Left::Unreadable => 2,
        }
    }

    pub fn pattern(self) -> u64
        ensures { result ≡ pattern_of self }
    {
        match self {
            Left::Nothing => 0,
            Left::AllOfIt => 0x5555_5555_5555_5555,
            Left::Unreadable => 0xaaaa_aaaa_aaaa_aaaa,
        }
    }
}

// A charge for the commit, and what its cut leaves.
#[derive(Clone, Copy, PartialEq, Eq)]
pub struct Case {
    pub charge: u32,
    pub left: Left,
}

// A cut at this charge, with each thing that it can leave.
fn add_cases(cases: &mut Vec<Case>, charge: u32) -> Result<(), AllocError>
    ensures { OnOk result (cases.new.items ≡ cases.old.items ++ cases_at charge) }
{
    for left in Left::ALL {
        cases.push(Case { charge, left })?;
    }
    Ok(())
}

// Every charge up to the writes that are needed.
pub fn cases(heap: Global, way: Way) -> Result<Vec<Case>, AllocError>
    ensures { IfOk result (λ cases. cases.items ≡ cases_of way) }
{
    let mut cases = Vec::new(heap);
    for charge in 0..=way.writes() {
        add_cases(&mut cases, charge)?;
    }
    Ok(cases)
}
