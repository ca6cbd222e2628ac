// A network's gates and outputs over joint signals.
ghost use Rattle.std.specs.Prelude.{◌≡◌, ◌≤◌, get_or, replicate};
ghost use Rattle.network.specs.Places.{Pasted};
ghost use Rattle.question_theory.specs.Question.{second_variable};
ghost use Rattle.compare_joint.specs.Rows.{wires_row, weights_row, Laid};

use compare_theory::Tables;
use network::{GateRecord, Network};
use network_places::unchecked::gate_at;
use question_terms::unchecked::variable_of;

// The joint signal of a signal of a network before whose gates shift others come.
#[tactic(auto, using(compare_theory::proofs::SideBySideLaws::second_most))]
fn joint_signal(inputs: usize, shift: usize, signal: u8) -> u16
    requires { shift ≤ 128 }
    ensures { result ≡ second_variable inputs shift signal }
{
    variable_of(inputs, shift, usize::from(signal)) as u16
}

// A gate's row of wires over the joint signals.
fn wires_row(gate: &GateRecord, inputs: usize, shift: usize) -> [u16; 17]
    requires { shift ≤ 128 }
    ensures { result ≡ wires_row (second_variable inputs shift) gate.now }
{
    let mut row = [0; 17];
    row[0] = u16::from(gate.fanin);
    for i in 0..16 {
        row[1 + i] = joint_signal(inputs, shift, gate.signals[i]);
    }
    row
}

// A gate's row of weights.
fn weights_row(gate: &GateRecord) -> [i32; 17]
    ensures { result ≡ weights_row gate.now }
{
    let mut row = [0; 17];
    row[0] = gate.threshold;
    row[1..].copy_from_slice(&gate.weights);
    row
}

// The gates of a network put into the joint from row start on. Other rows stay as they were, and the joint's counts.
pub fn lay(network: &Network, start: usize, joint: &mut Tables)
    requires { (start ≤ 128) × (network.now.gates ≤ 128) }
    ensures laid { Laid network.now start joint.old.wires joint.old.weights joint.new.wires joint.new.weights }
    ensures inputs_same { joint.new.inputs ≡ joint.old.inputs }
    ensures gates_same { joint.new.gates ≡ joint.old.gates }
{
    for g in 0..network.gates {
        let gate = gate_at(network, g);
        joint.wires[start + g] = wires_row(&gate, network.inputs, start);
        joint.weights[start + g] = weights_row(&gate);
    }
}

// The joint signals of the second network's outputs, at the first places; the first network has so many gates.
pub fn joint_outputs(second: &Network, gates: usize) -> [u16; 16]
    requires { (second.now.outputs ≤ 16) × (gates ≤ 128) }
    ensures { Pasted 0 0 second.now.outputs (λ j. second_variable second.now.inputs gates (get_or second.now.drivers j 0)) (replicate 16 0) result }
{
    let mut outs = [0; 16];
    for j in 0..second.outputs {
        outs[j] = joint_signal(second.inputs, gates, second.drivers[j]);
    }
    outs
}
