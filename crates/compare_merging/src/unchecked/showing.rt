// Two signals shown to have one bit.
ghost use Rattle.std.specs.Prelude.{◌≡◌, ◌≤◌, ◌<◌, IsTrue};
ghost use Rattle.compare_theory.specs.Joint.{gate_of_rows, Summable, Ready, OneBit};
ghost use Rattle.compare_theory.specs.Tables.{joint_of};
ghost use Rattle.compare_refutation.specs.Endings.{IfRefuted};

use compare_advice::unchecked::cone;
use compare_refutation::unchecked::differ;
use compare_refutation::{Ending, Refutation};
use compare_theory::Tables;

// Whether two gates, each given by its rows, have the same feeds, place by place, and the same threshold.
fn same_gate(
    wires: &[u16; 17],
    weights: &[i32; 17],
    others: &[u16; 17],
    numbers: &[i32; 17],
) -> bool
    requires { Summable wires.now weights.now × Summable others.now numbers.now }
    ensures { IsTrue result → gate_of_rows wires.now weights.now ≡ gate_of_rows others.now numbers.now }
{
    let end = 1 + usize::from(wires[0]);
    wires[..end] == others[..end] && weights[..end] == numbers[..end]
}

// Whether p and q are the signals of gates that are the same.
fn are_twins(joint: &Tables, p: usize, q: usize) -> bool
    requires { Ready (joint_of joint.now) }
    ensures { IsTrue result → OneBit (joint_of joint.now) p q }
{
    if p < joint.inputs || q < joint.inputs {
        return false;
    }
    let g = p - joint.inputs;
    let h = q - joint.inputs;
    if joint.gates <= g || joint.gates <= h {
        return false;
    }
    same_gate(
        &joint.wires[g],
        &joint.weights[g],
        &joint.wires[h],
        &joint.weights[h],
    )
}

// Whether signals p and q have one bit on every frame: those of gates that are the same have, and others by refutation.
pub(crate) fn decide(
    joint: &Tables,
    p: usize,
    q: usize,
    gates_first: bool,
    budget: u64,
) -> Refutation
    requires { Ready (joint_of joint.now) × (p < 296) × (q < 296) }
    ensures few_steps { result.left ≤ budget }
    ensures shown { IfRefuted result.ending (OneBit (joint_of joint.now) p q) }
{
    if are_twins(joint, p, q) {
        return Refutation {
            ending: Ending::Refuted,
            left: budget,
        };
    }
    if budget == 0 {
        return Refutation {
            ending: Ending::Spent,
            left: 0,
        };
    }
    let mut list = [0; 256];
    let count = cone(joint, p, q, &mut list);
    differ(joint, &list[..count], p, q, budget, gates_first)
}

// The same with both orders of trying: with inputs first for half of the budget, and with gates first for the rest.
pub(crate) fn decide_twice(joint: &Tables, p: usize, q: usize, budget: u64) -> Refutation
    requires { Ready (joint_of joint.now) × (p < 296) × (q < 296) }
    ensures few_steps { result.left ≤ budget }
    ensures shown { IfRefuted result.ending (OneBit (joint_of joint.now) p q) }
{
    if p == q {
        return Refutation {
            ending: Ending::Refuted,
            left: budget,
        };
    }
    let given = budget / 2;
    let result = decide(joint, p, q, false, given);
    let left = budget - given + result.left;
    match result.ending {
        Ending::Spent => decide(joint, p, q, true, left),
        ending => Refutation { ending, left },
    }
}
