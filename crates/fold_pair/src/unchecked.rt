// The pair of two gates by their distinct feeds, as an answer, and on a sound record.
ghost use Rattle.std.specs.Prelude.{◌≡◌, true};
ghost use Rattle.basics.specs.Refusals.{refused};
ghost use Rattle.network.specs.Record.{sound_record};
ghost use Rattle.pair_theory.specs.Alignments.{AlignmentOnScale};
ghost use Rattle.fold_pair.specs.Answers.{as_pair, pair_found};
ghost use Rattle.fold_pair.specs.Parts.{pair_answer, pair_of_alignment};

use crate::{Multipliers, PairFound};
use fold_edges::unchecked::{aligned_at, test_edge};
use network::Network;
use pair_search::Found;
use pair_search::unchecked::find_pair;
use pair_theory::Alignment;
use refusals::Refusal;

// A refused pair: 0 for both multipliers.
#[tactic(auto, unfolding(crate::specs::Answers::as_pair))]
pub fn no_pair(code: u8) -> PairFound
    ensures { result ≡ as_pair (refused code) }
{
    PairFound { code, k: 0, l: 0 }
}

// The pair of two gates by their distinct feeds. Refusals: 7 too wide, 16 no pair.
#[tactic(auto, unfolding(basics::specs::Refusals::checks, refusals::specs::Numbers::number_of, pair_search::specs::Search::found_as, crate::specs::Parts::pair_of_alignment))]
pub fn pair_of(a: Alignment) -> Result<Multipliers, Refusal>
    requires { AlignmentOnScale a }
    ensures { pair_answer result ≡ pair_of_alignment a }
{
    if a.count > 16 {
        return Err(Refusal::TooWide);
    }
    match find_pair(a) {
        Found::At(k, l) => Ok(Multipliers { k, l }),
        Found::Nothing => Err(Refusal::NoPair),
    }
}

// The pair for u and v of a sound record. Refusals: 11 no such gate, 12 not a feed, 7 too wide, 16 no pair.
fn pair_at(network: &Network, u: usize, v: usize) -> Result<Multipliers, Refusal>
    requires { sound_record network.now ≡ true }
    ensures { as_pair (pair_answer result) ≡ pair_found network.now u v }
{
    test_edge(network, u, v)?;
    pair_of(aligned_at(network, u, v))
}

// The same as an answer with a code.
#[tactic(auto, unfolding(crate::specs::Answers::as_pair))]
pub fn pair_sound(network: &Network, u: usize, v: usize) -> PairFound
    requires { sound_record network.now ≡ true }
    ensures { result ≡ pair_found network.now u v }
{
    match pair_at(network, u, v) {
        Ok(pair) => PairFound {
            code: 0,
            k: pair.k,
            l: pair.l,
        },
        Err(refusal) => no_pair(refusal.number()),
    }
}
