// The fewest lit signals that show why a merge disagrees. Document 02, No. 9.
#![tactic(auto)]

pub mod files;
pub mod unchecked;

ghost use Rattle.fold_witness.specs.Witness.{WitnessOf};

use fold_edges::unchecked::{aligned_at, test_edge};
use network::Network;
use network_soundness::is_sound;
use unchecked::{none, witness_of};

// What `witness` answers: the merge's own number, and the setting where that is 15; else there is none, and `setting` is 0.
#[derive(Clone, Copy)]
pub struct Witnessed {
    pub code: u8,
    pub setting: usize,
}

// For a merge that is refused with 15, a setting of the distinct feeds on which the merged gate and the composed pair differ, with
// as few ones as any such setting has; bit i is distinct feed i. Nothing is merged. The number is the merge's: 0 accepted, 20 broken
// record, 11 no such gate, 12 not a feed, 14 off the dial, 7 too wide, 6 off the scale, 24 broken margin,
// 15 disagrees.
pub fn witness(network: Network, u: usize, v: usize, k: usize, l: usize) -> Witnessed
    ensures { WitnessOf network u v k l result }
{
    if !is_sound(network) {
        return none(20);
    }
    if let Err(refusal) = test_edge(&network, u, v) {
        return none(refusal.number());
    }
    let a = aligned_at(&network, u, v);
    witness_of(a, k, l)
}
