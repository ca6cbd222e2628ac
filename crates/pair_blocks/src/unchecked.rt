// The test of a block, which is the settings with one setting of the high half, all at once: no turn of a loop leaves it, and a block that
// the ends of its sums settle needs no loop. Each call asks for numbers on the scale.
ghost use Rattle.std.specs.Prelude.{◌≡◌, ◌≤◌};
ghost use Rattle.pair_theory.specs.Alignments.{ThresholdsWithin, DialLimits};
ghost use Rattle.pair_spans.specs.Spans.{MixedSums, Spanned};
ghost use Rattle.pair_blocks.specs.Blocks.{block_between, settled_off, settled_on, block_clear};

use fold_theory::Thresholds;
use pair_clearing::unchecked::{clears_between, lower_threshold, upper_threshold};
use pair_spans::Span;

// Whether v's sums settle that the composed pair is 0 on the whole block, and every merged sum is at most `lower`.
#[tactic(auto, unfolding(crate::specs::Blocks::settled_off))]
fn settled_off(thresholds: Thresholds, lower: i32, span_v: Span, span: Span) -> bool
    ensures { result ≡ settled_off thresholds lower span_v span }
{
    !(thresholds.on <= span_v.most) & !(thresholds.off <= span_v.most) & (span.most <= lower)
}

// Whether they settle that it is 1, and every merged sum is at least `upper`.
#[tactic(auto, unfolding(crate::specs::Blocks::settled_on))]
fn settled_on(thresholds: Thresholds, upper: i32, span_v: Span, span: Span) -> bool
    ensures { result ≡ settled_on thresholds upper span_v span }
{
    (thresholds.on <= span_v.least) & (thresholds.off <= span_v.least) & (upper <= span.least)
}

// Whether every setting of the low half clears, all of them tried.
fn clears_at_once(
    sums_u: &[i32; 512],
    sums_v: &[i32; 512],
    mixes: &[i32; 256],
    thresholds: Thresholds,
    upper: i32,
    lower: i32,
    lows: usize,
) -> bool
    requires { lows ≤ 256 }
    ensures { result ≡ block_between thresholds upper lower lows sums_u.now sums_v.now mixes.now }
{
    // Kept: an iterator over the three tables is no plainer, and `all` would leave the loop.
    let mut clear = true;
    for setting in 0..lows {
        let here = clears_between(
            thresholds,
            upper,
            lower,
            sums_u[setting],
            sums_v[setting],
            mixes[setting],
        );
        clear &= here;
    }
    clear
}

// Whether every setting of the low half clears, from what its sums must reach and the ends between which they lie.
pub fn block_clears(
    sums_u: &[i32; 512],
    sums_v: &[i32; 512],
    mixes: &[i32; 256],
    span_v: Span,
    span: Span,
    thresholds: Thresholds,
    k: usize,
    l: usize,
    lows: usize,
) -> bool
    requires thresholds_within { ThresholdsWithin 10000000 thresholds }
    requires dial_limits { DialLimits k l }
    requires lows_bound { lows ≤ 256 }
    requires mixed_sums { MixedSums k l lows sums_u.now sums_v.now mixes.now }
    requires spanned { Spanned lows sums_v.now span_v }
    requires spanned_2 { Spanned lows mixes.now span }
    ensures { result ≡ block_clear thresholds k l lows sums_u.now sums_v.now }
{
    let upper = upper_threshold(thresholds, k, l);
    let lower = lower_threshold(thresholds, k, l);
    if settled_off(thresholds, lower, span_v, span) {
        return true;
    }
    if settled_on(thresholds, upper, span_v, span) {
        return true;
    }
    clears_at_once(sums_u, sums_v, mixes, thresholds, upper, lower, lows)
}
