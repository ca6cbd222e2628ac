// The pair search, by tables of sums. Each call asks for at most 16 distinct feeds and for numbers on the scale.
ghost use Rattle.std.specs.Prelude.{◌≡◌, false, not, ◌&&◌, ℕ, ◌+◌, ◌≤◌, ◌<◌};
ghost use Rattle.gate_sums.specs.Tables.{Sums, sum_from};
ghost use Rattle.fold_theory.specs.Aligned.{clears, qualifies_on};
ghost use Rattle.fold_theory.specs.Pair.{pairs, first};
ghost use Rattle.pair_theory.specs.Alignments.{aligned_in, ThresholdsWithin, Searchable, DialLimits};
ghost use Rattle.pair_clearing.specs.Clearing.{SumTables};
ghost use Rattle.pair_bounds.specs.Ranges.{RememberedWithin};
ghost use Rattle.pair_search.specs.Search.{found_as, bounds_below, bounds_above, RuledOut};

use crate::Found;
use fold_theory::Thresholds;
use gate_sums::unchecked::{settings, sum_at, table};
use pair_agreement::unchecked::{clear_settings, scale_fits};
use pair_bounds::Remembered;
use pair_bounds::unchecked::{remembered, tightest};
use pair_clearing::unchecked::{clears_at, composed_bit};
use pair_theory::Alignment;

// Whether a setting that rules out k with some l does so with every greater l, from its two sums.
fn bounds_below(thresholds: Thresholds, su: i32, sv: i32) -> bool
    ensures { result ≡ bounds_below thresholds su sv }
{
    (thresholds.on <= sv) & !composed_bit(thresholds, su, sv)
}

// Whether one that rules out a candidate does so with each that has the same k + l and a greater k.
fn bounds_above(thresholds: Thresholds, su: i32, sv: i32) -> bool
    ensures { result ≡ bounds_above thresholds su sv }
{
    let one = composed_bit(thresholds, su, sv);
    let vote = thresholds.own <= su;
    (vote & !one) | (!vote & (one & (thresholds.on <= sv)))
}

// The same on a setting.
fn bounds_above_at(
    sums_u: &[i32; 512],
    sums_v: &[i32; 512],
    thresholds: Thresholds,
    setting: usize,
) -> bool
    requires sum_tables { SumTables sums_u.now sums_v.now }
    requires setting_bound { setting < 65536 }
    ensures { result ≡ bounds_above thresholds (sum_from sums_u.now setting) (sum_from sums_v.now setting) }
{
    let su = sum_at(sums_u, setting);
    let sv = sum_at(sums_v, setting);
    bounds_above(thresholds, su, sv)
}

// Whether a setting rules out k with l and with every greater l.
fn rules_out_k(
    sums_u: &[i32; 512],
    sums_v: &[i32; 512],
    thresholds: Thresholds,
    k: usize,
    l: usize,
    setting: usize,
) -> bool
    requires sum_tables { SumTables sums_u.now sums_v.now }
    requires thresholds_within { ThresholdsWithin 10000000 thresholds }
    requires dial_limits { DialLimits k l }
    requires setting_bound { setting < 65536 }
    ensures { result ≡ bounds_below thresholds (sum_from sums_u.now setting) (sum_from sums_v.now setting)
        && not (clears thresholds k l (sum_from sums_u.now setting) (sum_from sums_v.now setting)) }
{
    let su = sum_at(sums_u, setting);
    let sv = sum_at(sums_v, setting);
    bounds_below(thresholds, su, sv) & !clears_at(sums_u, sums_v, thresholds, k, l, setting)
}

// Whether no remembered setting rules out k with this k + l and with every greater one.
fn serves_k(
    sums_u: &[i32; 512],
    sums_v: &[i32; 512],
    thresholds: Thresholds,
    known: Remembered,
    sum: usize,
    k: usize,
) -> bool
    requires sum_tables { SumTables sums_u.now sums_v.now }
    requires thresholds_within { ThresholdsWithin 10000000 thresholds }
    requires remembered_within { RememberedWithin 65536 known }
    requires k_bound { k ≤ 32 }
    ensures { result ≡ false → (l : ℕ) → sum ≤ k + l → l ≤ 32 → RuledOut thresholds sums_u.now sums_v.now known k l }
{
    if sum <= k {
        return true;
    }
    let l = sum - k;
    if 32 < l {
        return false;
    }
    let last = rules_out_k(sums_u, sums_v, thresholds, k, l, known.last);
    let earlier = rules_out_k(sums_u, sums_v, thresholds, k, l, known.earlier);
    !(last | earlier)
}

// The least k from `from` on that no remembered setting rules out with this k + l and with every greater one; 33 if there is none.
fn least_k(
    sums_u: &[i32; 512],
    sums_v: &[i32; 512],
    thresholds: Thresholds,
    known: Remembered,
    sum: usize,
    from: usize,
) -> usize
    requires sum_tables { SumTables sums_u.now sums_v.now }
    requires thresholds_within { ThresholdsWithin 10000000 thresholds }
    requires remembered_within { RememberedWithin 65536 known }
    requires from_bound { from ≤ 33 }
    ensures lower_bound { (from ≤ result) × (result ≤ 33) }
    ensures by_index { (k l : ℕ) → from ≤ k → k < result → sum ≤ k + l → l ≤ 32
        → RuledOut thresholds sums_u.now sums_v.now known k l }
{
    for k in from..33 {
        if serves_k(sums_u, sums_v, thresholds, known, sum, k) {
            return k;
        }
    }
    33
}

// The first pair that qualifies, from the tables of the two gates' sums. A candidate is tried first on two remembered settings, which from
// the start are those that rule out the most, one from either side; then on every setting: the blocks that are clear at once, and those
// after them one by one. The first that disagrees is remembered. A remembered setting that bounds k / l from below passes over a k for all
// sums to come, and one that bounds it from above over what is left of a sum.
fn scan(a: Alignment, sums_u: &[i32; 512], sums_v: &[i32; 512]) -> Found
    requires searchable { Searchable a }
    requires sums { Sums a.us 256 sums_u.now }
    requires sums_2 { Sums a.vs 256 sums_v.now }
    ensures { found_as result ≡ first (qualifies_on (aligned_in a)) pairs 16 }
{
    let thresholds = a.thresholds;
    let count = a.count;
    let all = settings(count);
    let mut known = tightest(sums_u, sums_v, thresholds, count);
    let mut least: usize = 1;
    'sum: for sum in 2..=64 {
        least = least_k(sums_u, sums_v, thresholds, known, sum, least);
        'candidate: for k in least..=32 {
            if sum <= k {
                continue 'sum;
            }
            let l = sum - k;
            if 32 < l {
                continue 'candidate;
            }
            if !clears_at(sums_u, sums_v, thresholds, k, l, known.last) {
                if bounds_above_at(sums_u, sums_v, thresholds, known.last) {
                    continue 'sum;
                }
                continue 'candidate;
            }
            if !clears_at(sums_u, sums_v, thresholds, k, l, known.earlier) {
                if bounds_above_at(sums_u, sums_v, thresholds, known.earlier) {
                    continue 'sum;
                }
                continue 'candidate;
            }
            if !scale_fits(a, k, l) {
                continue 'candidate;
            }
            let clear = clear_settings(a, sums_u, sums_v, k, l);
            for setting in clear..all {
                if !clears_at(sums_u, sums_v, thresholds, k, l, setting) {
                    known = remembered(sums_u, sums_v, thresholds, known, setting);
                    continue 'candidate;
                }
            }
            return Found::At(k, l);
        }
    }
    Found::Nothing
}

// The pair: the k and l with the least k + l, then the least k, that qualify.
pub fn find_pair(a: Alignment) -> Found
    requires { Searchable a }
    ensures { found_as result ≡ first (qualifies_on (aligned_in a)) pairs 16 }
{
    let sums_u = table(&a.us);
    let sums_v = table(&a.vs);
    scan(a, &sums_u, &sums_v)
}
