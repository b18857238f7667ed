// The calibration that is committed over the first one, which is the datasheet's.
ghost use Rattle.std.specs.Prelude.{◌≡◌};
ghost use Rattle.layout.specs.Held.{pairs_of};
ghost use Rattle.every_cut.specs.Asked.{second_pairs};

use layout::meanings::Pair;
use layout::pairs::Pairs;

// AC1 to MD by their keys: every value is another than that of the first.
const SECOND: [(u8, i32); 11] = [
    (1, 7911),
    (2, -934),
    (3, -14306),
    (4, 31567),
    (5, 25671),
    (6, 18974),
    (7, 5498),
    (8, 46),
    (9, -32767),
    (10, -11075),
    (11, 2432),
];

pub fn second_pairs() -> Pairs
    ensures { pairs_of result ≡ second_pairs }
{
    let mut pairs = Pairs::new();
    for (key, value) in SECOND {
        let _ = pairs.lay(Pair { key, value });
    }
    pairs
}
