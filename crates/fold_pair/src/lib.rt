// The pair of two gates, on network records and on whole files.
#![tactic(auto)]

pub mod files;
pub mod unchecked;

ghost use Rattle.std.specs.Prelude.{◌≡◌};
ghost use Rattle.fold_pair.specs.Answers.{pair_found};

use network::Network;
use network_soundness::is_sound;
use unchecked::{no_pair, pair_sound};

// What `pair` answers: 0 or the refusal, and the two multipliers.
#[derive(Clone, Copy)]
pub struct PairFound {
    pub code: u8,
    pub k: usize,
    pub l: usize,
}

// The multipliers with which one gate merges into another.
#[derive(Clone, Copy)]
pub struct Multipliers {
    pub k: usize,
    pub l: usize,
}

// The pair for u and v: the k and l with the least k + l, then the least k, whose merge is within the limits, keeps the margins and agrees. Refusals:
// 20 broken record, 11 no such gate, 12 not a feed, 7 too wide, 16 no pair.
pub fn pair(network: Network, u: usize, v: usize) -> PairFound
    ensures { result ≡ pair_found network u v }
{
    if !is_sound(network) {
        return no_pair(20);
    }
    pair_sound(&network, u, v)
}
