// The witness of two gates by their distinct feeds. The caller has tested what each call asks for.
ghost use Rattle.std.specs.Prelude.{◌≡◌};
ghost use Rattle.pair_theory.specs.Alignments.{AlignmentOnScale};
ghost use Rattle.fold_witness.specs.Parts.{no_witness, as_witness, WitnessOfAlignment};

use crate::Witnessed;
use fold_merge::unchecked::merges::test_limits;
use pair_agreement::unchecked::without_margins;
use pair_theory::Alignment;
use pair_witness::Unclear;
use pair_witness::unchecked::fewest_of;

// No setting, with a number that is not 15.
#[tactic(auto, unfolding(crate::specs::Parts::no_witness))]
pub fn none(code: u8) -> Witnessed
    ensures { result ≡ no_witness code }
{
    Witnessed { code, setting: 0 }
}

// What a pass found, as an answer: 15 and the setting, or 0.
#[tactic(auto, unfolding(crate::specs::Parts::as_witness))]
fn shown(found: Unclear) -> Witnessed
    ensures { result ≡ as_witness found }
{
    match found {
        Unclear::At(setting) => Witnessed { code: 15, setting },
        Unclear::Nowhere => none(0),
    }
}

// The witness of two gates with k and l: the first refusal among 14, 7, 6, 24 and 15, and a setting with 15; 0 if there is none. Margins
// are tested before the settings, and play no part in them. It has a frame of its own.
#[inline(never)]
pub fn witness_of(a: Alignment, k: usize, l: usize) -> Witnessed
    requires { AlignmentOnScale a }
    ensures { WitnessOfAlignment a k l result }
{
    if let Err(refusal) = test_limits(a, k, l) {
        return none(refusal.number());
    }
    shown(fewest_of(without_margins(a), k, l))
}
