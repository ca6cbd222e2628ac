// The agreement test and the scale test of a merge, by tables of sums. Each call asks for numbers on the scale, so that no sum and no
// product leaves 32 bits.
ghost use Rattle.std.specs.Prelude.{◌≡◌, ◌^◌, ◌<◌, pos, get_or};
ghost use Rattle.gate_sums.specs.Tables.{Sums};
ghost use Rattle.network.specs.Limits.{in_scale};
ghost use Rattle.fold_theory.specs.Aligned.{mix, agrees_all, clears_on, clears_all, scale_fits};
ghost use Rattle.pair_theory.specs.Alignments.{aligned_in, Searchable, DialLimits};
ghost use Rattle.pair_blocks.specs.Blocks.{ClearSettings};
ghost use Rattle.pair_agreement.specs.Agreement.{plainly};

use fold_theory::Thresholds;
use gate_sums::unchecked::{high_feeds, settings, table};
use network::Board;
use pair_blocks::unchecked::block_clears;
use pair_clearing::unchecked::{low_thresholds, merged_threshold};
use pair_mixing::unchecked::mixed;
use pair_spans::unchecked::{mixed_sums, span};
use pair_theory::Alignment;

// Whether a number is on the scale of weights and thresholds.
fn in_scale(z: i32) -> bool
    ensures { result ≡ in_scale z }
{
    z.unsigned_abs() <= 1000000
}

// Whether the merged gate's weight at a distinct feed is on the scale.
fn weight_fits(a: &Alignment, k: usize, l: usize, feed: usize) -> bool
    requires searchable { Searchable a.now }
    requires dial_limits { DialLimits k l }
    requires feed_bound { feed < 16 }
    ensures { result ≡ in_scale (mix k l (get_or a.now.us feed (pos 0)) (get_or a.now.vs feed (pos 0))) }
{
    in_scale(mixed(k, l, a.us[feed], a.vs[feed]))
}

// Whether the merged gate's weights and threshold are on the scale.
pub fn scale_fits(a: Alignment, k: usize, l: usize) -> bool
    requires searchable { Searchable a }
    requires dial_limits { DialLimits k l }
    ensures { result ≡ scale_fits (aligned_in a) k l }
{
    (0..a.count).all(|feed| weight_fits(&a, k, l, feed))
        && in_scale(merged_threshold(a.thresholds, k, l))
}

// How many settings are clear from the first on, in whole blocks, from the tables of the two gates' sums: on a clear setting the merged gate
// has the composed pair's bit and keeps the margins. All of them, or those before the first block with one that is not.
pub fn clear_settings(
    a: Alignment,
    sums_u: &[i32; 512],
    sums_v: &[i32; 512],
    k: usize,
    l: usize,
) -> usize
    requires searchable { Searchable a }
    requires dial_limits { DialLimits k l }
    requires sums { Sums a.us 256 sums_u.now }
    requires sums_2 { Sums a.vs 256 sums_v.now }
    ensures { ClearSettings (2 ^ a.count) (clears_on (aligned_in a) k l) result }
{
    let count = a.count;
    let high_count = high_feeds(count);
    let highs = settings(high_count);
    let lows = settings(count - high_count);
    let mixes = mixed_sums(sums_u, sums_v, k, l, lows);
    let span_v = span(sums_v, lows);
    let span = span(&mixes, lows);
    for high in 0..highs {
        let reach = low_thresholds(sums_u, sums_v, a.thresholds, high);
        if !block_clears(sums_u, sums_v, &mixes, span_v, span, reach, k, l, lows) {
            return high * lows;
        }
    }
    settings(count)
}

// Whether every setting is clear.
fn clears_everywhere(a: Alignment, k: usize, l: usize) -> bool
    requires searchable { Searchable a }
    requires dial_limits { DialLimits k l }
    ensures { result ≡ clears_all (aligned_in a) k l }
{
    let sums_u = table(&a.us);
    let sums_v = table(&a.vs);
    clear_settings(a, &sums_u, &sums_v, k, l) == settings(a.count)
}

// The same two gates with the margins of version 1, which ask for equal bits and no more.
pub fn without_margins(a: Alignment) -> Alignment
    ensures { result ≡ plainly a }
{
    Alignment {
        thresholds: Thresholds {
            board: Board {
                version: 1,
                on: 0,
                off: 1,
            },
            ..a.thresholds
        },
        ..a
    }
}

// Whether the merged gate and the composed pair have the same bit on every setting.
pub fn agrees_everywhere(a: Alignment, k: usize, l: usize) -> bool
    requires searchable { Searchable a }
    requires dial_limits { DialLimits k l }
    ensures { result ≡ agrees_all (aligned_in a) k l }
{
    clears_everywhere(without_margins(a), k, l)
}
