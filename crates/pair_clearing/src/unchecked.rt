// The composed pair's bit on a setting, what a merged gate's sum must reach there with the margins, and what is left of that for the low
// half of a setting. Each call asks for numbers on the scale, so that no sum and no product leaves 32 bits.
ghost use Rattle.std.specs.Prelude.{◌≡◌, ◌+◌, ◌≤◌, ◌<◌, pos, nat_abs, ◌+ℤ◌, ◌-ℤ◌, get_or};
ghost use Rattle.gate_sums.specs.Tables.{sum_from};
ghost use Rattle.fold_theory.specs.Aligned.{composed_bit, mixed_threshold, clears};
ghost use Rattle.pair_theory.specs.Alignments.{ThresholdsWithin, DialLimits};
ghost use Rattle.pair_mixing.specs.Mixing.{Mixable};
ghost use Rattle.pair_clearing.specs.Clearing.{SumTables, reduced, clears_between};

use fold_theory::Thresholds;
use gate_sums::unchecked::sum_at;
use pair_mixing::unchecked::mixed;

// The merged gate's threshold.
pub fn merged_threshold(thresholds: Thresholds, k: usize, l: usize) -> i32
    requires thresholds_within { ThresholdsWithin 10000000 thresholds }
    requires dial_limits { DialLimits k l }
    ensures { result ≡ mixed_threshold thresholds k l }
{
    mixed(k, l, thresholds.own, thresholds.on)
}

// The composed pair's bit, from the two sums.
pub fn composed_bit(thresholds: Thresholds, su: i32, sv: i32) -> bool
    ensures { result ≡ composed_bit thresholds su sv }
{
    if su >= thresholds.own {
        sv >= thresholds.on
    } else {
        sv >= thresholds.off
    }
}

// What the merged gate's sum must reach where its bit is to be 1.
pub fn upper_threshold(thresholds: Thresholds, k: usize, l: usize) -> i32
    requires thresholds_within { ThresholdsWithin 10000000 thresholds }
    requires dial_limits { DialLimits k l }
    ensures { result ≡ mixed_threshold thresholds k l +ℤ pos thresholds.board.on }
{
    merged_threshold(thresholds, k, l) + i32::from(thresholds.board.on)
}

// What the merged gate's sum must not exceed where its bit is to be 0.
pub fn lower_threshold(thresholds: Thresholds, k: usize, l: usize) -> i32
    requires thresholds_within { ThresholdsWithin 10000000 thresholds }
    requires dial_limits { DialLimits k l }
    ensures { result ≡ mixed_threshold thresholds k l -ℤ pos thresholds.board.off }
{
    merged_threshold(thresholds, k, l) - i32::from(thresholds.board.off)
}

// Whether a merged sum is at least `upper` where the composed pair is 1, and at most `lower` where it is 0.
pub fn clears_between(
    thresholds: Thresholds,
    upper: i32,
    lower: i32,
    su: i32,
    sv: i32,
    sum: i32,
) -> bool
    ensures { result ≡ clears_between thresholds upper lower su sv sum }
{
    let one = composed_bit(thresholds, su, sv);
    (one & (upper <= sum)) | (!one & (sum <= lower))
}

// Whether the merged gate's sum has the composed pair's bit and keeps the margins, from the two sums: it reaches the threshold and the on
// margin where that bit is 1, and stays below the threshold by the off margin where it is 0.
fn clears(thresholds: Thresholds, k: usize, l: usize, su: i32, sv: i32) -> bool
    requires thresholds_within { ThresholdsWithin 10000000 thresholds }
    requires mixable { Mixable k l su sv }
    ensures { result ≡ clears thresholds k l su sv }
{
    let sum = mixed(k, l, su, sv);
    let upper = upper_threshold(thresholds, k, l);
    let lower = lower_threshold(thresholds, k, l);
    clears_between(thresholds, upper, lower, su, sv, sum)
}

// The same on a setting.
pub fn clears_at(
    sums_u: &[i32; 512],
    sums_v: &[i32; 512],
    thresholds: Thresholds,
    k: usize,
    l: usize,
    setting: usize,
) -> bool
    requires sum_tables { SumTables sums_u.now sums_v.now }
    requires thresholds_within { ThresholdsWithin 10000000 thresholds }
    requires dial_limits { DialLimits k l }
    requires setting_bound { setting < 65536 }
    ensures { result ≡ clears thresholds k l (sum_from sums_u.now setting) (sum_from sums_v.now setting) }
{
    let su = sum_at(sums_u, setting);
    let sv = sum_at(sums_v, setting);
    clears(thresholds, k, l, su, sv)
}

// What the sums of the low half must reach where those of the high half are `su` and `sv`.
fn less_high_half(thresholds: Thresholds, su: i32, sv: i32) -> Thresholds
    requires thresholds_within { ThresholdsWithin 2000000 thresholds }
    requires su_bound { nat_abs su ≤ 8000000 }
    requires sv_bound { nat_abs sv ≤ 8000000 }
    ensures { result ≡ reduced thresholds su sv }
{
    Thresholds {
        own: thresholds.own - su,
        on: thresholds.on - sv,
        off: thresholds.off - sv,
        ..thresholds
    }
}

// The same for one setting of the high half, from the tables.
pub fn low_thresholds(
    sums_u: &[i32; 512],
    sums_v: &[i32; 512],
    thresholds: Thresholds,
    high: usize,
) -> Thresholds
    requires sum_tables { SumTables sums_u.now sums_v.now }
    requires thresholds_within { ThresholdsWithin 2000000 thresholds }
    requires high_bound { high < 256 }
    ensures { result ≡ reduced thresholds (get_or sums_u.now (256 + high) (pos 0)) (get_or sums_v.now (256 + high) (pos 0)) }
{
    less_high_half(thresholds, sums_u[256 + high], sums_v[256 + high])
}

// The same from the sums of the low half and what they must reach.
pub fn clears_low(
    sums_u: &[i32; 512],
    sums_v: &[i32; 512],
    thresholds: Thresholds,
    k: usize,
    l: usize,
    low: usize,
) -> bool
    requires sum_tables { SumTables sums_u.now sums_v.now }
    requires thresholds_within { ThresholdsWithin 10000000 thresholds }
    requires dial_limits { DialLimits k l }
    requires low_bound { low < 256 }
    ensures { result ≡ clears thresholds k l (get_or sums_u.now low (pos 0)) (get_or sums_v.now low (pos 0)) }
{
    clears(thresholds, k, l, sums_u[low], sums_v[low])
}
