// The datasheet's coefficients as pairs of a store.
ghost use Rattle.std.specs.Prelude.{◌≡◌, ℕ, ℤ, map};
ghost use Rattle.layout.specs.Catalogue.{pair_of};
ghost use Rattle.layout.specs.Held.{pairs_of};
ghost use Rattle.figures.specs.Figures.{example_pairs, WorkedFigures};

use compensation::datasheet::example_calibration;
use layout::meanings::Pair;
use layout::pairs::Pairs;

// The keys of AC1 to AC6, B1, B2, MB, MC and MD, each with the datasheet's coefficient.
fn keyed_coefficients() -> [(u8, i64); 11]
    ensures { map (λ (p : ℕ × ℤ). pair_of p.0 p.1) result ≡ example_pairs }
{
    let k = example_calibration().values();
    [
        (1, k.ac1),
        (2, k.ac2),
        (3, k.ac3),
        (4, k.ac4),
        (5, k.ac5),
        (6, k.ac6),
        (7, k.b1),
        (8, k.b2),
        (9, k.mb),
        (10, k.mc),
        (11, k.md),
    ]
}

// The datasheet's coefficients as pairs, in the order of their keys. The contract also says what the definitions give for the worked figures.
pub fn example_pairs() -> Pairs
    ensures pairs { pairs_of result ≡ example_pairs }
    ensures figures { WorkedFigures }
{
    let mut pairs = Pairs::new();
    for (key, coefficient) in keyed_coefficients() {
        // kept: `as`, proved to fit; `try_from` would answer an error that cannot come.
        let value = coefficient as i32;
        let _ = pairs.lay(Pair { key, value });
    }
    pairs
}
