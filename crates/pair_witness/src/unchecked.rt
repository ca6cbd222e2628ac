// The pass over the settings for a witness, by tables of sums. Each call asks for at most 16 distinct feeds and for numbers on the scale.
ghost use Rattle.std.specs.Prelude.{◌^◌};
ghost use Rattle.gate_sums.specs.Tables.{Sums};
ghost use Rattle.fold_theory.specs.Aligned.{clears_on};
ghost use Rattle.pair_theory.specs.Alignments.{aligned_in, Mergeable};
ghost use Rattle.pair_witness.specs.Pass.{FewestUnclear};

use crate::Unclear;
use gate_sums::unchecked::{high_feeds, settings, table};
use pair_blocks::unchecked::block_clears;
use pair_clearing::unchecked::{clears_low, low_thresholds};
use pair_spans::unchecked::{mixed_sums, span};
use pair_theory::Alignment;

// In one pass over the settings: one with the fewest ones of those that are not clear. `least` is the fewest ones so far, 17 while every
// setting was clear. The ones of a setting are counted before it is tested; a high half is passed over where its own ones are not fewer, and
// where all of its settings are clear.
fn fewest(a: Alignment, sums_u: &[i32; 512], sums_v: &[i32; 512], k: usize, l: usize) -> Unclear
    requires mergeable { Mergeable a k l }
    requires sums { Sums a.us 256 sums_u.now }
    requires sums_2 { Sums a.vs 256 sums_v.now }
    ensures { FewestUnclear (2 ^ a.count) (clears_on (aligned_in a) k l) result }
{
    let count = a.count;
    let high_count = high_feeds(count);
    let highs = settings(high_count);
    let lows = settings(count - high_count);
    let mixes = mixed_sums(sums_u, sums_v, k, l, lows);
    let span_v = span(sums_v, lows);
    let span = span(&mixes, lows);
    let mut least: u32 = 17;
    let mut shown: usize = 0;
    for high in 0..highs {
        let lit = usize::count_ones(high);
        if least <= lit {
            continue;
        }
        let reach = low_thresholds(sums_u, sums_v, a.thresholds, high);
        if block_clears(sums_u, sums_v, &mixes, span_v, span, reach, k, l, lows) {
            continue;
        }
        for low in 0..lows {
            let ones = lit + usize::count_ones(low);
            if least <= ones {
                continue;
            }
            if clears_low(sums_u, sums_v, reach, k, l, low) {
                continue;
            }
            least = ones;
            shown = high * lows + low;
        }
    }
    if 16 < least {
        return Unclear::Nowhere;
    }
    Unclear::At(shown)
}

// The same from the two gates alone.
pub fn fewest_of(a: Alignment, k: usize, l: usize) -> Unclear
    requires { Mergeable a k l }
    ensures { FewestUnclear (2 ^ a.count) (clears_on (aligned_in a) k l) result }
{
    let sums_u = table(&a.us);
    let sums_v = table(&a.vs);
    fewest(a, &sums_u, &sums_v, k, l)
}
