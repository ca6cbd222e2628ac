// Which signal to try next, and the frame that a partial assignment shows. Nothing is promised but that each call is safe and ends, and that a choice
// is a signal: a refutation holds whatever the advice.
ghost use Rattle.std.specs.Prelude.{◌≤◌, ◌<◌, IfSome};
ghost use Rattle.compare_theory.specs.Joint.{Summable, Ready};
ghost use Rattle.compare_theory.specs.Tables.{joint_of};

use crate::rules::ends_of;
use crate::{Choice, Held};
use compare_theory::Tables;

// What lifts a gate's signal above every input's.
const LIFT: u32 = 10000000;

// The heaviest open feed of a gate, with the bit that goes with the gate's. Signals from `from` on come first.
fn heaviest(
    wires: &[u16; 17],
    weights: &[i32; 17],
    held: &Held,
    lit: bool,
    from: usize,
) -> Option<Choice>
    requires { Summable wires.now weights.now }
    ensures { IfSome result (λ c. c.signal < 296) }
{
    let mut best = None;
    let mut heavy: u32 = 0;
    for i in 0..usize::from(wires[0]) {
        let signal = usize::from(wires[1 + i]);
        let weight = weights[1 + i];
        let lift = if from <= signal { LIFT } else { 0 };
        let size = weight.unsigned_abs() + lift;
        if 2 <= held.bits[signal] && heavy < size {
            heavy = size;
            best = Some(Choice {
                signal,
                lit: (0 < weight) == lit,
            });
        }
    }
    best
}

// The heaviest open feed of the gate with signal `own`, if the gate's bit is known and does not follow from its feeds yet.
fn open_feed(
    wires: &[u16; 17],
    weights: &[i32; 17],
    held: &Held,
    own: usize,
    from: usize,
) -> Option<Choice>
    requires summable { Summable wires.now weights.now }
    requires own_bound { own < 296 }
    ensures { IfSome result (λ c. c.signal < 296) }
{
    let known = held.bits[own];
    if 2 <= known {
        return None;
    }
    let threshold = weights[0];
    let ends = ends_of(wires, weights, held);
    if threshold <= ends.least || ends.most < threshold {
        return None;
    }
    heaviest(wires, weights, held, known == 1, from)
}

// The same for a listed gate; a number that is no gate's has no feed.
fn listed_feed(joint: &Tables, held: &Held, g: usize, from: usize) -> Option<Choice>
    requires { Ready (joint_of joint.now) }
    ensures { IfSome result (λ c. c.signal < 296) }
{
    if joint.gates <= g {
        return None;
    }
    open_feed(
        &joint.wires[g],
        &joint.weights[g],
        held,
        joint.inputs + g,
        from,
    )
}

// The heaviest open feed of the first listed gate that has one to offer. `gates_first`: one that is a gate, if there is any.
pub(crate) fn pick(joint: &Tables, list: &[u16], held: &Held, gates_first: bool) -> Option<Choice>
    requires { Ready (joint_of joint.now) }
    ensures { IfSome result (λ c. c.signal < 296) }
{
    let from = if gates_first { joint.inputs } else { 296 };
    let mut spare = None;
    for g in list {
        if let Some(choice) = listed_feed(joint, held, usize::from(*g), from) {
            if !gates_first || from <= choice.signal {
                return Some(choice);
            }
            spare = spare.or(Some(choice));
        }
    }
    spare
}

// The frame with the inputs that are lit.
pub(crate) fn frame_of(held: &Held, inputs: usize) -> u64
    requires { inputs ≤ 40 }
{
    let mut frame: u64 = 0;
    for i in 0..inputs {
        if held.bits[i] == 1 {
            frame |= 1 << i;
        }
    }
    frame
}
