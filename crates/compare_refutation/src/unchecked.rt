// The refutation of a partial assignment, and of two signals being apart.
ghost use Rattle.std.specs.Prelude.{◌≡◌, ◌≤◌, ◌<◌};
ghost use Rattle.compare_theory.specs.Joint.{Ready, OneBit, Refuted};
ghost use Rattle.compare_theory.specs.Tables.{joint_of};
ghost use Rattle.compare_theory.specs.Decisions.{apart};
ghost use Rattle.compare_refutation.specs.Endings.{IfRefuted};

use crate::advice::{frame_of, pick};
use crate::decisions::Decisions;
use crate::rules::propagate;
use crate::{Ending, Held, Refutation, Step};
use compare_theory::Tables;

// How many decisions there can be at once.
const LEVELS: usize = 64;

// Whether no assignment that fits the joint extends the bits: decisions in one loop. A contradiction turns the last decision round on which it rests;
// one that rests on none refutes.
fn refute(
    joint: &Tables,
    list: &[u16],
    bits: [u8; 296],
    budget: u64,
    gates_first: bool,
) -> Refutation
    requires { Ready (joint_of joint.now) }
    ensures few_steps { result.left ≤ budget }
    ensures shown { IfRefuted result.ending (Refuted (joint_of joint.now) bits) }
{
    let mut held = Held {
        bits,
        rests: [0; 296],
    };
    let mut decisions = Decisions {
        chosen: [0; LEVELS],
        tried: [0; LEVELS],
    };
    let mut depth: usize = 0;
    for left in (0..budget).rev() {
        if let Step::Clash(why) = propagate(joint, list, &mut held) {
            if why == 0 {
                return Refutation {
                    ending: Ending::Refuted,
                    left,
                };
            }
            depth = why.ilog2() as usize;
            decisions.jump_back(&mut held, depth, why);
            continue;
        }
        let Some(choice) = pick(joint, list, &held, gates_first) else {
            return Refutation {
                ending: Ending::Worth(frame_of(&held, joint.inputs)),
                left,
            };
        };
        if LEVELS <= depth {
            return Refutation {
                ending: Ending::Spent,
                left,
            };
        }
        decisions.decide(&mut held, depth, choice.signal, u8::from(choice.lit));
        depth += 1;
    }
    Refutation {
        ending: Ending::Spent,
        left: 0,
    }
}

// All signals open but p and q, which are apart: p has the bit.
fn apart_bits(p: usize, q: usize, bit: u8) -> [u8; 296]
    requires { (p < 296) × (q < 296) × (bit < 2) }
    ensures { result ≡ apart p q bit }
{
    let mut bits = [2; 296];
    bits[p] = bit;
    bits[q] = 1 - bit;
    bits
}

// Whether signals p and q have one bit under every assignment that fits the joint.
pub fn differ(
    joint: &Tables,
    list: &[u16],
    p: usize,
    q: usize,
    budget: u64,
    gates_first: bool,
) -> Refutation
    requires { Ready (joint_of joint.now) × (p < 296) × (q < 296) }
    ensures few_steps { result.left ≤ budget }
    ensures shown { IfRefuted result.ending (OneBit (joint_of joint.now) p q) }
{
    let half = refute(joint, list, apart_bits(p, q, 1), budget, gates_first);
    match half.ending {
        Ending::Refuted => refute(joint, list, apart_bits(p, q, 0), half.left, gates_first),
        _ => half,
    }
}
