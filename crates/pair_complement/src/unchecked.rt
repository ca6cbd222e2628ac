// The complement as the gate that votes. The caller has tested the gates and the edge.
ghost use Rattle.std.specs.Prelude.{◌≡◌, map, neg_ℤ};
ghost use Rattle.basics.specs.SizeLaws.{SizesWithin};
ghost use Rattle.pair_theory.specs.Alignments.{complement_in, AlignmentOnScale};

use fold_theory::Thresholds;
use pair_theory::Alignment;

// Minus each number.
fn negated(mut numbers: [i32; 16]) -> [i32; 16]
    requires { SizesWithin 1000000 numbers }
    ensures { result ≡ map neg_ℤ numbers }
{
    for number in numbers.iter_mut() {
        *number = -*number;
    }
    numbers
}

// The same two gates with the complement as the gate that votes.
pub fn complemented(a: Alignment) -> Alignment
    requires { AlignmentOnScale a }
    ensures { result ≡ complement_in a }
{
    let t = a.thresholds;
    Alignment {
        us: negated(a.us),
        thresholds: Thresholds {
            own: 1 - t.own,
            on: t.off,
            off: t.on,
            ..t
        },
        ..a
    }
}
