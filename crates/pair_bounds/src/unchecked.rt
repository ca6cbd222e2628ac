// Settings that rule out many candidates. What is tried first needs no promise but that it is a setting: nothing here decides an answer.
// With the margins 0 and 1 a setting bounds k / l from one side, or says nothing of it: it asks for k * a + l * c < 0 where the composed
// pair is 0, and for k * a + l * c >= 0 where it is 1, with a = su - own and c = sv - on. Other margins are left out here. What is added or
// multiplied has 32 bits.
ghost use Rattle.std.specs.Prelude.{◌≡◌, ℕ, ◌+◌, ◌*◌, ◌^◌, ◌≤◌, ◌<◌, nat_abs};
ghost use Rattle.pair_theory.specs.Alignments.{ThresholdsWithin, DialLimits};
ghost use Rattle.pair_clearing.specs.Clearing.{SumTables};
ghost use Rattle.pair_bounds.specs.Ranges.{RememberedWithin, BoundsWithin, BoundsOnDial, NeighboursOnDial};

use crate::{Bounds, Fraction, Neighbours, Remembered};
use fold_theory::Thresholds;
use gate_sums::unchecked::{high_feeds, settings, sum_at};
use pair_clearing::unchecked::{composed_bit, low_thresholds, merged_threshold};
use pair_spans::Span;
use pair_spans::unchecked::{mixed_sums, span};

// Whether a setting can only rule out a k too small for its l: neither the gate that votes nor the composed pair is 1 on it. Every other
// setting can only rule out a k too large.
fn bounds_below(
    sums_u: &[i32; 512],
    sums_v: &[i32; 512],
    thresholds: Thresholds,
    setting: usize,
) -> bool
    requires sum_tables { SumTables sums_u.now sums_v.now }
    requires setting_bound { setting < 65536 }
{
    let su = sum_at(sums_u, setting);
    let sv = sum_at(sums_v, setting);
    !(su >= thresholds.own) & !composed_bit(thresholds, su, sv)
}

// The settings to try first once another has ruled a candidate out: that one, and the last before it, unless that one bounds k / l on the
// same side.
pub fn remembered(
    sums_u: &[i32; 512],
    sums_v: &[i32; 512],
    thresholds: Thresholds,
    known: Remembered,
    setting: usize,
) -> Remembered
    requires sum_tables { SumTables sums_u.now sums_v.now }
    requires remembered_within { RememberedWithin 65536 known }
    requires setting_bound { setting < 65536 }
    ensures { (n : ℕ) → RememberedWithin n known → setting < n → RememberedWithin n result }
{
    if bounds_below(sums_u, sums_v, thresholds, setting)
        == bounds_below(sums_u, sums_v, thresholds, known.last)
    {
        return Remembered {
            last: setting,
            ..known
        };
    }
    Remembered {
        last: setting,
        earlier: known.last,
    }
}

// The fraction between two neighbours that has the smallest terms.
fn between(pair: Neighbours) -> Fraction
    requires { NeighboursOnDial pair }
    ensures { (result.k ≡ pair.below.k + pair.above.k) × (result.l ≡ pair.below.l + pair.above.l) }
{
    Fraction {
        k: pair.below.k + pair.above.k,
        l: pair.below.l + pair.above.l,
    }
}

// The neighbours with that fraction in the place of the one with the same sign of k * a + l * c.
fn nearer(pair: Neighbours, middle: Fraction) -> Neighbours
    requires neighbours_on_dial { NeighboursOnDial pair }
    requires dial_limits { DialLimits middle.k middle.l }
    requires k_value { (middle.k ≡ pair.below.k + pair.above.k) × (middle.l ≡ pair.below.l + pair.above.l) }
    ensures { NeighboursOnDial result }
{
    let here = pair.low + pair.high;
    if (here < 0) == (pair.low < 0) {
        Neighbours {
            below: middle,
            low: here,
            ..pair
        }
    } else {
        Neighbours {
            above: middle,
            high: here,
            ..pair
        }
    }
}

// The fractions on the dial between which k * a + l * c changes its sign.
fn neighbours(a: i32, c: i32) -> Neighbours
    requires { (nat_abs a ≤ 18000000) × (nat_abs c ≤ 18000000) }
    ensures { NeighboursOnDial result }
{
    let mut pair = Neighbours {
        below: Fraction { k: 0, l: 1 },
        above: Fraction { k: 1, l: 0 },
        low: c,
        high: a,
    };
    for _ in 0..64u32 {
        let middle = between(pair);
        if 32 < middle.k {
            return pair;
        }
        if 32 < middle.l {
            return pair;
        }
        pair = nearer(pair, middle);
    }
    pair
}

// k * a + l * c, with a fraction's terms.
fn value(fraction: Fraction, a: i32, c: i32) -> i32
    requires dial_limits { DialLimits fraction.k fraction.l }
    requires a_bound { (nat_abs a ≤ 18000000) × (nat_abs c ≤ 18000000) }
{
    (fraction.k as i32) * a + (fraction.l as i32) * c
}

// The bounds with one more from below, by a setting that asks for k * a + l * c < 0.
fn at_least(bounds: Bounds, a: i32, c: i32, setting: usize) -> Bounds
    requires bounds_on_dial { BoundsOnDial bounds }
    requires a_bound { (nat_abs a ≤ 18000000) × (nat_abs c ≤ 18000000) }
    ensures bounds_on_dial_2 { BoundsOnDial result }
    ensures by_index { (n : ℕ) → BoundsWithin n bounds → setting < n → BoundsWithin n result }
{
    if value(bounds.least, a, c) < 0 {
        return bounds;
    }
    Bounds {
        least: neighbours(a, c).above,
        below: setting,
        ..bounds
    }
}

// The bounds with one more from above, by a setting that asks for the sign of c.
fn at_most(bounds: Bounds, a: i32, c: i32, setting: usize) -> Bounds
    requires bounds_on_dial { BoundsOnDial bounds }
    requires a_bound { (nat_abs a ≤ 18000000) × (nat_abs c ≤ 18000000) }
    ensures bounds_on_dial_2 { BoundsOnDial result }
    ensures by_index { (n : ℕ) → BoundsWithin n bounds → setting < n → BoundsWithin n result }
{
    if (value(bounds.most, a, c) < 0) == (c < 0) {
        return bounds;
    }
    Bounds {
        most: neighbours(a, c).below,
        above: setting,
        ..bounds
    }
}

// The bounds with that of one setting more, from its two sums.
fn bounded(bounds: Bounds, reach: Thresholds, su: i32, sv: i32, setting: usize) -> Bounds
    requires bounds_on_dial { BoundsOnDial bounds }
    requires thresholds_within { ThresholdsWithin 10000000 reach }
    requires su_bound { (nat_abs su ≤ 8000000) × (nat_abs sv ≤ 8000000) }
    ensures bounds_on_dial_2 { BoundsOnDial result }
    ensures by_index { (n : ℕ) → BoundsWithin n bounds → setting < n → BoundsWithin n result }
{
    let a = su - reach.own;
    let c = sv - reach.on;
    if (a < 0) & (sv < reach.off) {
        return at_least(bounds, a, c, setting);
    }
    at_most(bounds, a, c, setting)
}

// The bounds with those of the settings with one setting of the high half.
fn bounded_by_block(
    sums_u: &[i32; 512],
    sums_v: &[i32; 512],
    reach: Thresholds,
    known: Bounds,
    high: usize,
    lows: usize,
) -> Bounds
    requires sum_tables { SumTables sums_u.now sums_v.now }
    requires thresholds_within { ThresholdsWithin 10000000 reach }
    requires bounds_on_dial { BoundsOnDial known }
    requires high_bound { high < 256 }
    requires lows_bound { lows ≤ 256 }
    ensures bounds_on_dial_2 { BoundsOnDial result }
    ensures by_index { (n : ℕ) → BoundsWithin n known → ((j : ℕ) → j < lows → 256 * high + j < n) → BoundsWithin n result }
{
    let mut bounds = known;
    for low in 0..lows {
        bounds = bounded(bounds, reach, sums_u[low], sums_v[low], 256 * high + low);
    }
    bounds
}

// Whether no more than one k / l is left.
fn closed(bounds: Bounds) -> bool
    requires { BoundsOnDial bounds }
{
    let least = bounds.least;
    let most = bounds.most;
    most.k * least.l <= least.k * most.l
}

// The merged gate's sums on the low half's settings, with a fraction's terms as the multipliers.
fn mixed_by(sums_u: &[i32; 512], sums_v: &[i32; 512], fraction: Fraction, lows: usize) -> [i32; 256]
    requires sum_tables { SumTables sums_u.now sums_v.now }
    requires dial_limits { DialLimits fraction.k fraction.l }
    requires lows_bound { lows ≤ 256 }
{
    mixed_sums(
        sums_u,
        sums_v,
        fraction.k as usize,
        fraction.l as usize,
        lows,
    )
}

// Its threshold.
fn threshold_by(reach: Thresholds, fraction: Fraction) -> i32
    requires thresholds_within { ThresholdsWithin 10000000 reach }
    requires dial_limits { DialLimits fraction.k fraction.l }
{
    merged_threshold(reach, fraction.k as usize, fraction.l as usize)
}

// Whether some setting with one setting of the high half can rule out an end, by the ends between which sums lie.
fn may_differ(
    reach: Thresholds,
    least: i32,
    most: i32,
    span_u: Span,
    span_v: Span,
    span_least: Span,
    span_most: Span,
) -> bool {
    let above = ((reach.off <= span_v.most) & (span_most.least < most))
        | ((span_v.least < reach.on) & (most <= span_most.most));
    let below = (span_u.least < reach.own)
        & (span_v.least < reach.off)
        & (least <= span_least.most);
    above | below
}

// Whether some setting with one setting of the high half rules out an end, all of them tried at once: no turn leaves the loop.
fn differs_at_ends(
    sums_u: &[i32; 512],
    sums_v: &[i32; 512],
    mixes_least: &[i32; 256],
    mixes_most: &[i32; 256],
    reach: Thresholds,
    least: i32,
    most: i32,
    lows: usize,
) -> bool
    requires { lows ≤ 256 }
{
    let mut differs = false;
    // Kept: an iterator over the four tables is no plainer.
    for low in 0..lows {
        let su = sums_u[low];
        let sv = sums_v[low];
        let on = (sv >= reach.off) & (mixes_most[low] < most);
        let off = (sv < reach.on) & (most <= mixes_most[low]);
        let below = (su < reach.own) & (sv < reach.off) & (least <= mixes_least[low]);
        differs = differs | on | off | below;
    }
    differs
}

// The setting of the high half that comes after `step` others: in an order that is none of the sums'.
fn high_at(step: usize, highs: usize) -> usize
    requires step_lt_highs { step < highs }
    requires highs_bound { highs ≤ 256 }
    ensures { result < highs }
{
    (37 * step) % highs
}

// The first step from `from` on whose block has a setting that rules out an end; `highs` if there is none.
fn next_step(
    sums_u: &[i32; 512],
    sums_v: &[i32; 512],
    thresholds: Thresholds,
    bounds: Bounds,
    from: usize,
    highs: usize,
    lows: usize,
) -> usize
    requires sum_tables { SumTables sums_u.now sums_v.now }
    requires thresholds_within { ThresholdsWithin 2000000 thresholds }
    requires bounds_on_dial { BoundsOnDial bounds }
    requires highs_bound { highs ≤ 256 }
    requires lows_nonzero { (0 < lows) × (lows ≤ 256) }
    ensures { from ≤ result }
{
    if highs <= from {
        return from;
    }
    let mixes_least = mixed_by(sums_u, sums_v, bounds.least, lows);
    let mixes_most = mixed_by(sums_u, sums_v, bounds.most, lows);
    let span_u = span(sums_u, lows);
    let span_v = span(sums_v, lows);
    let span_least = span(&mixes_least, lows);
    let span_most = span(&mixes_most, lows);
    for step in from..highs {
        let reach = low_thresholds(sums_u, sums_v, thresholds, high_at(step, highs));
        let least = threshold_by(reach, bounds.least);
        let most = threshold_by(reach, bounds.most);
        if !may_differ(reach, least, most, span_u, span_v, span_least, span_most) {
            continue;
        }
        if differs_at_ends(
            sums_u,
            sums_v,
            &mixes_least,
            &mixes_most,
            reach,
            least,
            most,
            lows,
        ) {
            return step;
        }
    }
    highs
}

// The settings that give the bounds.
fn settings_of(bounds: Bounds) -> Remembered
    ensures { (n : ℕ) → BoundsWithin n bounds → RememberedWithin n result }
{
    Remembered {
        last: bounds.above,
        earlier: bounds.below,
    }
}

// The settings that bound k / l the most, from above and from below, in one pass over the blocks: one of which no setting rules out an end
// of what is left of the dial gives no better bound.
pub fn tightest(
    sums_u: &[i32; 512],
    sums_v: &[i32; 512],
    thresholds: Thresholds,
    count: usize,
) -> Remembered
    requires sum_tables { SumTables sums_u.now sums_v.now }
    requires thresholds_within { ThresholdsWithin 2000000 thresholds }
    requires count_bound { count ≤ 16 }
    ensures { RememberedWithin (2 ^ count) result }
{
    let high_count = high_feeds(count);
    let highs = settings(high_count);
    let lows = settings(count - high_count);
    let mut bounds = Bounds {
        least: Fraction { k: 1, l: 32 },
        below: 0,
        most: Fraction { k: 32, l: 1 },
        above: 0,
    };
    let mut step: usize = 0;
    // Kept: not every step is taken, `next_step` tells the next.
    while step < highs {
        let high = high_at(step, highs);
        let reach = low_thresholds(sums_u, sums_v, thresholds, high);
        bounds = bounded_by_block(sums_u, sums_v, reach, bounds, high, lows);
        if closed(bounds) {
            return settings_of(bounds);
        }
        step = next_step(sums_u, sums_v, thresholds, bounds, step + 1, highs, lows);
    }
    settings_of(bounds)
}
