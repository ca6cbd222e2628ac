// `outs` has the joint's signals for the second network's outputs, and `drivers` those for the first's. The notes are those of `compare_advice`: they
// choose what is tried, and nothing trusts them.
mod outputs;
mod pairs;
mod showing;

ghost use Rattle.std.specs.Prelude.{◌≤◌, IfNone};
ghost use Rattle.compare_theory.specs.Joint.{Ready};
ghost use Rattle.compare_theory.specs.Tables.{joint_of};
ghost use Rattle.compare_theory.specs.Wiring.{Matched};
ghost use Rattle.compare_merging.specs.Merging.{Merged};

use crate::Outcome;
use compare_advice::unchecked::look_around;
use compare_advice::unchecked::notes::Notes;
use compare_theory::Tables;
use outputs::{compare_outputs, merge_rounds};
use pairs::merge_all;

// How often to look at random frames before any pair is tried, and the number that they are made from.
const LOOKS: usize = 64;

const SEED: u64 = 11400714819323198485;

// Whether the two signals of each output have one bit on every frame, with at most so many steps. The first network has `start` gates.
pub fn match_outputs(
    joint: &mut Tables,
    drivers: &[u8; 16],
    outs: &mut [u16; 16],
    outputs: usize,
    start: usize,
    budget: u64,
) -> Outcome
    requires { Ready (joint_of joint.old) × (outputs ≤ 16) × (start ≤ joint.old.gates) }
    ensures merged { Merged (joint_of joint.old) outs.old (joint_of joint.new) outs.new }
    ensures cases { IfNone result.worth (Matched outputs drivers.now (joint_of joint.new) outs.new) }
    ensures left_le_budget { result.left ≤ budget }
{
    let mut notes = Notes::new(drivers, outputs);
    look_around(joint, outs, &mut notes, LOOKS, SEED);
    let first = (joint.inputs + start) as u16;
    let end = (joint.inputs + joint.gates) as u16;
    let after = merge_all(joint, outs, &mut notes, first, end, budget);
    let left = merge_rounds(joint, outs, &mut notes, after);
    if let Some(frame) = notes.found {
        return Outcome {
            worth: Some(frame),
            left,
        };
    }
    compare_outputs(joint, drivers, outs, outputs, left)
}
