// The comparison of two sound networks.
ghost use Rattle.std.specs.Prelude.{◌≡◌, true, ◌&&◌, ◌≤◌, ◌/◌, ◌^◌, eqb, ltb, cond, min};
ghost use Rattle.network.specs.Record.{net_of, sound_record};
ghost use Rattle.compare_theory.specs.Verdicts.{comparable};
ghost use Rattle.compare_theory.specs.Tables.{joint_of};
ghost use Rattle.compare_networks.specs.Answers.{ComparedAs};
ghost use Rattle.compare_networks.specs.Settled.{Outputs, Settled, verdict_of, frame_of};

use crate::{Compared, Finding, Found};
use compare_joint::unchecked::rows::{joint_outputs, lay};
use compare_lanes::unchecked::{frame_count, read_frames};
use compare_merging::unchecked::match_outputs;
use compare_theory::Tables;
use network::Network;

// A refusal: its number, and 0 for every other number.
pub fn refusal(code: u8) -> Compared
    ensures { result ≡ record { code = code; verdict = 0; frame = 0; steps = 0 } }
{
    Compared {
        code,
        verdict: 0,
        frame: 0,
        steps: 0,
    }
}

// A verdict.
fn given(finding: Finding, steps: u64) -> Compared
    ensures { result ≡ record { code = 0; verdict = verdict_of finding; frame = frame_of finding; steps = steps } }
{
    let (verdict, frame) = match finding {
        Finding::Alike => (0, 0),
        Finding::Apart(frame) => (1, frame),
        Finding::Undecided => (2, 0),
    };
    Compared {
        code: 0,
        verdict,
        frame,
        steps,
    }
}

// Whether two networks have equal input and output counts.
fn same_counts(first: &Network, second: &Network) -> bool
    ensures { result ≡ (eqb first.now.inputs second.now.inputs && eqb first.now.outputs second.now.outputs) }
{
    first.inputs == second.inputs && first.outputs == second.outputs
}

// The steps that a refutation is given: with at most 20 inputs no more than reading every frame, 32 at a time, would take.
fn steps_given(inputs: usize, budget: u64) -> u64
    requires { inputs ≤ 40 }
    ensures few { result ≤ budget }
    ensures given { result ≡ cond (ltb 20 inputs) budget (min budget (2 ^ inputs / 32)) }
{
    if 20 < inputs {
        return budget;
    }
    budget.min(frame_count(inputs) / 32)
}

// The two signals of each output: apart on a frame that is worth reading or on one of the 31 after it, or, with at most 20 inputs, read on every
// frame.
fn read(joint: &Tables, drivers: &[u8; 16], outs: &[u16; 16], outputs: usize, worth: u64) -> Finding
    requires { Outputs (joint_of joint.now) drivers.now outs.now outputs }
    ensures { Settled (joint_of joint.now) drivers.now outs.now outputs result }
{
    let frames = frame_count(joint.inputs);
    let near = worth % frames;
    if let Some(frame) = read_frames(joint, drivers, outs, outputs, near, near + 1) {
        return Finding::Apart(frame);
    }
    if 20 < joint.inputs {
        return Finding::Undecided;
    }
    match read_frames(joint, drivers, outs, outputs, 0, frames) {
        Some(frame) => Finding::Apart(frame),
        None => Finding::Alike,
    }
}

// The two signals of each output, matched in the joint or read. The first network has `start` gates.
fn settle(
    joint: &mut Tables,
    drivers: &[u8; 16],
    outs: &mut [u16; 16],
    outputs: usize,
    start: usize,
    budget: u64,
) -> Found
    requires { Outputs (joint_of joint.old) drivers.now outs.old outputs × (start ≤ joint.old.gates) }
    ensures settled { Settled (joint_of joint.old) drivers.now outs.old outputs result.finding }
    ensures few_steps { result.left ≤ budget }
{
    let given = steps_given(joint.inputs, budget);
    let outcome = match_outputs(joint, drivers, outs, outputs, start, given);
    let finding = match outcome.worth {
        Some(frame) => read(joint, drivers, outs, outputs, frame),
        None => Finding::Alike,
    };
    Found {
        finding,
        left: budget - given + outcome.left,
    }
}

// Two sound networks compared with at most so many steps. Refusals: 19.
pub fn compare_sound(first: &Network, second: &Network, budget: u64) -> Compared
    requires { (sound_record first.now ≡ true) × (sound_record second.now ≡ true) }
    ensures { ComparedAs (comparable (net_of first.now) (net_of second.now)) budget result }
{
    if !same_counts(first, second) {
        return refusal(19);
    }
    let mut joint = Tables {
        inputs: first.inputs,
        gates: first.gates + second.gates,
        wires: [[0; 17]; 256],
        weights: [[0; 17]; 256],
    };
    lay(first, 0, &mut joint);
    lay(second, first.gates, &mut joint);
    let mut outs = joint_outputs(second, first.gates);
    let found = settle(
        &mut joint,
        &first.drivers,
        &mut outs,
        first.outputs,
        first.gates,
        budget,
    );
    given(found.finding, budget - found.left)
}
