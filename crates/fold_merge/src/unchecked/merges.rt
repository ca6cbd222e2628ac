// The tests of a merge after that of the record, on the two gates by their distinct feeds, and the gate that it puts in the place of the second.
ghost use Rattle.std.specs.Prelude.{◌≡◌, true, T};
ghost use Rattle.basics.specs.Refusals.{code_of};
ghost use Rattle.refusals.specs.Numbers.{as_answer};
ghost use Rattle.network.specs.Limits.{keeps};
ghost use Rattle.network.specs.Record.{sound_record};
ghost use Rattle.fold_theory.specs.Aligned.{scale_fits};
ghost use Rattle.pair_theory.specs.Alignments.{aligned_in, merged_of, AlignmentOnScale, Mergeable};
ghost use Rattle.fold_edges.specs.Codes.{first_failing};
ghost use Rattle.fold_merge.specs.Codes.{TriedMerge, limit_tests_on, merge_tests_on};

use fold_edges::unchecked::{aligned_at, on_dial, test_edge};
use network::unchecked::gate_keeps;
use network::{GateRecord, Network};
use pair_agreement::unchecked::{agrees_everywhere, scale_fits};
use pair_mixing::unchecked::merged_gate;
use pair_theory::Alignment;
use refusals::Refusal;

// Whether the merged gate keeps the margins.
fn merge_keeps(a: Alignment, k: usize, l: usize) -> bool
    requires mergeable { Mergeable a k l }
    requires t { T (scale_fits (aligned_in a) k l) }
    ensures { result ≡ keeps a.thresholds.board (merged_of a k l) }
{
    gate_keeps(merged_gate(a, k, l), a.thresholds.board)
}

// Whether two gates with k and l are within the limits of a merge. Refusals: 14 off the dial, 7 too wide, 6 off the scale, 24 broken margin.
#[tactic(auto, unfolding(basics::specs::Refusals::code_of, refusals::specs::Numbers::number_of, fold_edges::specs::Codes::first_failing, crate::specs::Codes::limit_tests_on))]
pub fn test_limits(a: Alignment, k: usize, l: usize) -> Result<(), Refusal>
    requires { AlignmentOnScale a }
    ensures { code_of (as_answer result) ≡ first_failing (limit_tests_on a k l) }
{
    if !on_dial(k) || !on_dial(l) {
        return Err(Refusal::OffTheDial);
    }
    if a.count > 16 {
        return Err(Refusal::TooWide);
    }
    if !scale_fits(a, k, l) {
        return Err(Refusal::OffTheScale);
    }
    if !merge_keeps(a, k, l) {
        return Err(Refusal::BrokenMargin);
    }
    Ok(())
}

// Whether two gates can be merged with k and l. Refusals: those of the limits, 15 disagrees.
pub fn test_merge(a: Alignment, k: usize, l: usize) -> Result<(), Refusal>
    requires { AlignmentOnScale a }
    ensures { code_of (as_answer result) ≡ first_failing (merge_tests_on a k l) }
{
    test_limits(a, k, l)?;
    if !agrees_everywhere(a, k, l) {
        return Err(Refusal::Disagrees);
    }
    Ok(())
}

// The gate with which u is merged into v with k and l, in a sound record. Where u votes against v, its complement is merged. Refusals: 11 no such
// gate, 12 not a feed, 14 off the dial, 7 too wide, 6 off the scale, 24 broken margin, 15 disagrees.
pub fn merged_at(
    network: &Network,
    u: usize,
    v: usize,
    k: usize,
    l: usize,
) -> Result<GateRecord, Refusal>
    requires { sound_record network.now ≡ true }
    ensures { TriedMerge network.now u v k l result }
{
    test_edge(network, u, v)?;
    let a = aligned_at(network, u, v);
    test_merge(a, k, l)?;
    Ok(merged_gate(a, k, l))
}
