// Signals of the second network tried against those of the first: what reads one that is shown to have the bit of an earlier one reads that instead.
ghost use Rattle.std.specs.Prelude.{◌≤◌, ◌<◌};
ghost use Rattle.compare_theory.specs.Joint.{Ready};
ghost use Rattle.compare_theory.specs.Tables.{joint_of};
ghost use Rattle.compare_merging.specs.Merging.{Merged};

use crate::Tried;
use crate::unchecked::showing::decide;
use compare_advice::unchecked::look_near;
use compare_advice::unchecked::notes::Notes;
use compare_joint::unchecked::wiring::{rewire_outputs, rewire_rows};
use compare_refutation::{Ending, Refutation};
use compare_theory::Tables;

// How many steps a pair of signals is given.
const PAIR_STEPS: u64 = 20000;

// Signals p and q tried: if they are shown to have one bit, what reads q reads p instead, outputs too.
pub(crate) fn merge(
    joint: &mut Tables,
    outs: &mut [u16; 16],
    p: u16,
    q: u16,
    gates_first: bool,
    budget: u64,
) -> Refutation
    requires { Ready (joint_of joint.old) × (p ≤ q) × (q < 296) }
    ensures merged { Merged (joint_of joint.old) outs.old (joint_of joint.new) outs.new }
    ensures few_steps { result.left ≤ budget }
{
    let result = decide(joint, usize::from(p), usize::from(q), gates_first, budget);
    if let Ending::Refuted = result.ending {
        rewire_rows(&mut joint.wires[..], p, q);
        rewire_outputs(&mut outs[..], p, q);
    }
    result
}

// Signals p and q tried with at most so many steps, if they have one mark and no frame is found. A frame that comes of it is looked at, with those
// near it.
fn merge_marked(
    joint: &mut Tables,
    outs: &mut [u16; 16],
    notes: &mut Notes,
    p: u16,
    q: u16,
    steps: u64,
    budget: u64,
) -> Tried
    requires { Ready (joint_of joint.old) × (p ≤ q) }
    ensures merged { Merged (joint_of joint.old) outs.old (joint_of joint.new) outs.new }
    ensures few_steps { result.left ≤ budget }
{
    if notes.found.is_some() || !notes.same_mark(usize::from(p), usize::from(q)) {
        return Tried {
            merged: false,
            left: budget,
        };
    }
    let given = budget.min(steps);
    let result = merge(joint, outs, p, q, false, given);
    if let Ending::Worth(frame) = result.ending {
        look_near(joint, outs, notes, frame);
    }
    Tried {
        merged: matches!(result.ending, Ending::Refuted),
        left: budget - given + result.left,
    }
}

// Signal q tried against each signal below an end, until one is shown to have its bit, each with at most so many steps.
fn merge_one(
    joint: &mut Tables,
    outs: &mut [u16; 16],
    notes: &mut Notes,
    end: u16,
    q: u16,
    steps: u64,
    budget: u64,
) -> Tried
    requires { Ready (joint_of joint.old) × (end ≤ q) }
    ensures merged { Merged (joint_of joint.old) outs.old (joint_of joint.new) outs.new }
    ensures few_steps { result.left ≤ budget }
{
    let mut left = budget;
    for p in 0..end {
        let tried = merge_marked(joint, outs, notes, p, q, steps, left);
        left = tried.left;
        if tried.merged {
            return tried;
        }
    }
    Tried {
        merged: false,
        left,
    }
}

// Signal q tried against each signal below an end: first for a gate that is the same, then by refutation. What is left of the budget.
fn merge_signal(
    joint: &mut Tables,
    outs: &mut [u16; 16],
    notes: &mut Notes,
    end: u16,
    q: u16,
    budget: u64,
) -> u64
    requires { Ready (joint_of joint.old) × (end ≤ q) }
    ensures merged { Merged (joint_of joint.old) outs.old (joint_of joint.new) outs.new }
    ensures few_steps { result ≤ budget }
{
    let twin = merge_one(joint, outs, notes, end, q, 0, budget);
    if twin.merged {
        return twin.left;
    }
    merge_one(joint, outs, notes, end, q, PAIR_STEPS, twin.left).left
}

// The signals from a first one on, below an end, each tried against those below the first. What is left of the budget.
pub(crate) fn merge_all(
    joint: &mut Tables,
    outs: &mut [u16; 16],
    notes: &mut Notes,
    first: u16,
    end: u16,
    budget: u64,
) -> u64
    requires { Ready (joint_of joint.old) }
    ensures merged { Merged (joint_of joint.old) outs.old (joint_of joint.new) outs.new }
    ensures few_steps { result ≤ budget }
{
    let mut left = budget;
    for q in first..end {
        left = merge_signal(joint, outs, notes, first, q, left);
    }
    left
}
