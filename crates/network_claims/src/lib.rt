// What is claimed of networks in other words than the definitions have: margins, sizes, collapses and sweeps.
#![tactic(auto)]

ghost use Rattle.std.specs.Prelude.{◌≡◌, ℕ, ◌≤◌, T};
ghost use Rattle.basics.specs.Refusals.{accepted};
ghost use Rattle.network.specs.Threshold.{Net};
ghost use Rattle.network.specs.Limits.{sound};
ghost use Rattle.fold_theory.specs.Collapse.{collapse};
ghost use Rattle.network_claims.specs.Folds.{AllMerged, SweepClaim};
ghost use Rattle.network_claims.specs.Margins.{MarginsExact};
ghost use Rattle.network_claims.specs.Sizes.{ReportMeant};

use network::Network;

// Document 02, No. 8, in the words of source document 004: a network is sound exactly when it is within the other limits and, under every
// assignment, each of its gates that is 1 has a sum of at least T + on, and each that is 0 a sum of at most T − off.
pub fn margins_are_exact()
    ensures { (net : Net) → MarginsExact net }
{}

// The report of a sound record: the levels are the longest path, counted in gates that have feeds, and the cost is the sum over all places of the
// record's weights and thresholds.
pub fn reports_measure_records(network: Network)
    ensures { ReportMeant network }
{}

// What an accepted collapse leaves: in the place of each reader its gate merged with its own pair, the least that qualifies, every other gate as
// it was, and u dropped.
pub fn readers_get_their_pairs()
    ensures { (net : Net) (u : ℕ) (after : Net) → collapse net u ≡ accepted after → AllMerged net u after }
{}

// A sweep of a sound network, with any reader limit up to 128: where some gate within the limit can be collapsed, it is the collapse of the
// lowest and then the sweep of what that leaves, with one collapse more; where none can, it changes nothing.
pub fn sweeps_take_the_lowest()
    ensures { (net : Net) (limit : ℕ) → T (sound net) → limit ≤ 128 → SweepClaim net limit }
{}
