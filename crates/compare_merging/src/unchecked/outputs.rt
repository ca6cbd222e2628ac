// The two signals of each output.
ghost use Rattle.std.specs.Prelude.{◌≤◌, ◌<◌, IfNone};
ghost use Rattle.compare_theory.specs.Joint.{Ready};
ghost use Rattle.compare_theory.specs.Tables.{joint_of};
ghost use Rattle.compare_theory.specs.Wiring.{Matched};
ghost use Rattle.compare_merging.specs.Merging.{Merged};

use crate::Outcome;
use crate::unchecked::pairs::merge;
use crate::unchecked::showing::decide_twice;
use compare_advice::unchecked::look_more;
use compare_advice::unchecked::notes::Notes;
use compare_refutation::Ending;
use compare_theory::Tables;

// How many outputs a network has at most.
const OUTPUTS: usize = 16;

// How many signals a joint has at most.
const SIGNALS: u16 = 296;

// How many turns all outputs are given, and how many steps an output is given in the first.
const TURNS: usize = 24;

const FIRST_STEPS: u64 = 20000;

// The two signals of output j tried with at most so many steps, if the second network's is the later one and no frame is found: what reads a signal
// never reads a later one instead. What is left of the budget.
fn merge_output(
    joint: &mut Tables,
    outs: &mut [u16; 16],
    notes: &mut Notes,
    j: usize,
    gates_first: bool,
    steps: u64,
    budget: u64,
) -> u64
    requires { Ready (joint_of joint.old) × (j < 16) }
    ensures merged { Merged (joint_of joint.old) outs.old (joint_of joint.new) outs.new }
    ensures few_steps { result ≤ budget }
{
    if notes.found.is_some() {
        return budget;
    }
    let Some(p) = notes.first_signal(j) else {
        return budget;
    };
    let q = outs[j];
    if q <= p || SIGNALS <= q {
        return budget;
    }
    let given = budget.min(steps);
    let result = merge(joint, outs, p, q, gates_first, given);
    if let Ending::Worth(frame) = result.ending {
        notes.found = Some(frame);
    }
    budget - given + result.left
}

// The two signals of each output tried with at most so many steps. What is left of the budget.
fn merge_outputs(
    joint: &mut Tables,
    outs: &mut [u16; 16],
    notes: &mut Notes,
    gates_first: bool,
    steps: u64,
    budget: u64,
) -> u64
    requires { Ready (joint_of joint.old) }
    ensures merged { Merged (joint_of joint.old) outs.old (joint_of joint.new) outs.new }
    ensures few_steps { result ≤ budget }
{
    let mut left = budget;
    for j in 0..OUTPUTS {
        left = merge_output(joint, outs, notes, j, gates_first, steps, left);
    }
    left
}

// The same in turns with more and more steps, each number of them twice: with inputs first, and with gates first. After the first turn more frames
// are looked at. What is left of the budget.
pub(crate) fn merge_rounds(
    joint: &mut Tables,
    outs: &mut [u16; 16],
    notes: &mut Notes,
    budget: u64,
) -> u64
    requires { Ready (joint_of joint.old) }
    ensures merged { Merged (joint_of joint.old) outs.old (joint_of joint.new) outs.new }
    ensures few_steps { result ≤ budget }
{
    let mut left = merge_outputs(joint, outs, notes, false, FIRST_STEPS, budget);
    look_more(joint, outs, notes);
    for turn in 1..TURNS {
        let steps = FIRST_STEPS << (2 * (turn / 2));
        left = merge_outputs(joint, outs, notes, turn % 2 == 1, steps, left);
    }
    left
}

// Whether the two signals of each output are one, or are shown to have one bit.
pub(crate) fn compare_outputs(
    joint: &Tables,
    drivers: &[u8; 16],
    outs: &[u16; 16],
    outputs: usize,
    budget: u64,
) -> Outcome
    requires { Ready (joint_of joint.now) × (outputs ≤ 16) }
    ensures few_steps { result.left ≤ budget }
    ensures cases { IfNone result.worth (Matched outputs drivers.now (joint_of joint.now) outs.now) }
{
    let mut left = budget;
    for j in 0..outputs {
        let p = usize::from(drivers[j]);
        let q = outs[j];
        if SIGNALS <= q {
            return Outcome {
                worth: Some(0),
                left,
            };
        }
        let result = decide_twice(joint, p, usize::from(q), left);
        left = result.left;
        let worth = match result.ending {
            Ending::Refuted => continue,
            Ending::Worth(frame) => frame,
            Ending::Spent => 0,
        };
        return Outcome {
            worth: Some(worth),
            left,
        };
    }
    Outcome { worth: None, left }
}
