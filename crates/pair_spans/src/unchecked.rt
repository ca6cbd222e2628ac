// The merged gate's sums on the settings of a block, and the ends between which sums lie: no turn of a loop leaves it. `mixed_sums` asks for
// numbers on the scale.
ghost use Rattle.std.specs.Prelude.{◌≤◌, ◌<◌, T, length};
ghost use Rattle.std.specs.Int.Signed.{le_z};
ghost use Rattle.pair_theory.specs.Alignments.{DialLimits};
ghost use Rattle.pair_clearing.specs.Clearing.{SumTables};
ghost use Rattle.pair_spans.specs.Spans.{MixedSums, Spanned};

use crate::Span;
use pair_mixing::unchecked::mixed;

// The merged gate's sums on the low half's settings.
pub fn mixed_sums(
    sums_u: &[i32; 512],
    sums_v: &[i32; 512],
    k: usize,
    l: usize,
    lows: usize,
) -> [i32; 256]
    requires sum_tables { SumTables sums_u.now sums_v.now }
    requires dial_limits { DialLimits k l }
    requires lows_bound { lows ≤ 256 }
    ensures { MixedSums k l lows sums_u.now sums_v.now result }
{
    let mut mixes = [0i32; 256];
    // Kept: an iterator over the three tables is no plainer.
    for low in 0..lows {
        mixes[low] = mixed(k, l, sums_u[low], sums_v[low]);
    }
    mixes
}

// The ends between which the sums on the low half's settings lie.
pub fn span(sums: &[i32], lows: usize) -> Span
    requires lows_in_bounds { lows ≤ length sums.now }
    requires lows_nonzero { 0 < lows }
    ensures { Spanned lows sums.now result }
{
    let mut least = sums[0];
    let mut most = sums[0];
    for sum in &sums[..lows] {
        least = least.min(*sum);
        most = most.max(*sum);
    }
    Span { least, most }
}
