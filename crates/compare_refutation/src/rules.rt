// What a partial assignment forces. A gate is two rows: its feed count and its signals, its threshold and its weights.
ghost use Rattle.std.specs.Prelude.{◌≡◌, ◌⊎◌, cond, ◌≤◌, ◌<◌, eqb, nat_abs};
ghost use Rattle.compare_theory.specs.Joint.{Summable, Ready, FitsJoint};
ghost use Rattle.compare_theory.specs.Tables.{joint_of};
ghost use Rattle.compare_theory.specs.Spans.{least, most, forced, room_of, settled};
ghost use Rattle.compare_theory.specs.Reasons.{EndsOf, FitsRows, FeedsSettled};
ghost use Rattle.compare_refutation.specs.Steps.{Ruled};

use crate::{Ends, Held, Step};
use compare_theory::Tables;

// How often the rules go through the list.
const ROUNDS: usize = 32;

// The least that a feed adds, by the byte of its signal.
#[tactic(auto, unfolding(compare_theory::specs::Spans::least))]
fn least_share(bit: u8, weight: i32) -> i32
    ensures { result ≡ least bit weight }
{
    match bit {
        0 => 0,
        1 => weight,
        _ => if 0 <= weight { 0 } else { weight },
    }
}

// The most that a feed adds.
#[tactic(auto, unfolding(compare_theory::specs::Spans::most))]
fn most_share(bit: u8, weight: i32) -> i32
    ensures { result ≡ most bit weight }
{
    match bit {
        0 => 0,
        1 => weight,
        _ => if 0 <= weight { weight } else { 0 },
    }
}

// The decisions on which a share rests: none if it is what it would be with its signal open.
fn reason(share: i32, free: i32, rest: u64) -> u64
    ensures { (share ≡ free) ⊎ (result ≡ rest) }
{
    if share == free { 0 } else { rest }
}

// The least and the greatest sum of a gate, and the decisions on which they rest.
pub(crate) fn ends_of(wires: &[u16; 17], weights: &[i32; 17], held: &Held) -> Ends
    requires { Summable wires.now weights.now }
    ensures { EndsOf held.now.bits held.now.rests wires.now weights.now
        result.least result.most result.up result.down }
{
    let mut lowest: i32 = 0;
    let mut highest: i32 = 0;
    let mut up: u64 = 0;
    let mut down: u64 = 0;
    for i in 0..usize::from(wires[0]) {
        let signal = usize::from(wires[1 + i]);
        let weight = weights[1 + i];
        let bit = held.bits[signal];
        let rest = held.rests[signal];
        let low = least_share(bit, weight);
        let high = most_share(bit, weight);
        up |= reason(low, least_share(2, weight), rest);
        down |= reason(high, most_share(2, weight), rest);
        lowest += low;
        highest += high;
    }
    Ends {
        least: lowest,
        most: highest,
        up,
        down,
    }
}

// The gate's bit by its threshold and the ends of its sums: 1, 0, or 2 if both can be.
#[tactic(auto, unfolding(compare_theory::specs::Spans::forced))]
fn forced_bit(threshold: i32, lowest: i32, highest: i32) -> u8
    ensures { result ≡ forced threshold lowest highest }
{
    if threshold <= lowest {
        return 1;
    }
    if threshold <= highest { 2 } else { 0 }
}

// How far a gate whose bit is `goal` is from a sum of the other bit.
#[tactic(auto, unfolding(compare_theory::specs::Spans::room_of))]
fn room_of(goal: u8, threshold: i32, lowest: i32, highest: i32) -> i32
    requires { (nat_abs threshold ≤ 1000000) × (nat_abs lowest ≤ 16000000) × (nat_abs highest ≤ 16000000) }
    ensures { (result ≡ room_of goal threshold lowest highest) × (nat_abs result ≤ 20000000) }
{
    if goal == 1 {
        return highest - threshold;
    }
    threshold - 1 - lowest
}

// A feed's byte after the gate's rule: an open feed that weighs more than the room goes with the gate, or against it if its weight is negative.
#[tactic(auto, unfolding(compare_theory::specs::Spans::settled))]
fn settled_bit(bit: u8, weight: i32, goal: u8, room: i32) -> u8
    requires { (goal < 2) × (nat_abs room ≤ 20000000) }
    ensures { result ≡ settled bit weight goal room }
{
    if bit < 2 {
        return bit;
    }
    if weight <= room {
        if 0 - room <= weight {
            return bit;
        }
        return 1 - goal;
    }
    goal
}

// The feeds of a gate whose bit is `goal`, each settled, for the decisions `why`; whether one was set.
fn settle_feeds(
    wires: &[u16; 17],
    weights: &[i32; 17],
    held: &mut Held,
    goal: u8,
    room: i32,
    why: u64,
) -> bool
    requires summable { Summable wires.now weights.now }
    requires goal_bound { (goal < 2) × (nat_abs room ≤ 20000000) }
    ensures { FeedsSettled held.old.bits held.old.rests wires.now weights.now goal room why
        held.new.bits held.new.rests }
{
    let mut moved = false;
    for i in 0..usize::from(wires[0]) {
        let signal = usize::from(wires[1 + i]);
        let known = held.bits[signal];
        let bit = settled_bit(known, weights[1 + i], goal, room);
        if 2 <= known {
            held.rests[signal] = why;
        }
        held.bits[signal] = bit;
        moved |= known != bit;
    }
    moved
}

// One mask for a bit that is lit, another for one that is dark.
fn mask_for(bit: u8, lit: u64, dark: u64) -> u64
    ensures { result ≡ cond (eqb bit 1) lit dark }
{
    if bit == 1 { lit } else { dark }
}

// The rule of a gate with this signal: its bit is forced by its feeds, or its heavy feeds by its bit.
fn apply_rule(wires: &[u16; 17], weights: &[i32; 17], held: &mut Held, signal: usize) -> Step
    requires summable { Summable wires.now weights.now }
    requires signal_bound { signal < 296 }
    ensures { Ruled (FitsRows wires.now weights.now signal) held.old held.new result }
{
    let threshold = weights[0];
    let known = held.bits[signal];
    let rest = held.rests[signal];
    let ends = ends_of(wires, weights, held);
    let own = forced_bit(threshold, ends.least, ends.most);
    if own < 2 {
        if known == own {
            return Step::Still;
        }
        let mask = mask_for(own, ends.up, ends.down);
        if known < 2 {
            return Step::Clash(mask | rest);
        }
        held.bits[signal] = own;
        held.rests[signal] = mask;
        return Step::Moved;
    }
    if 2 <= known {
        return Step::Still;
    }
    let room = room_of(known, threshold, ends.least, ends.most);
    let mask = mask_for(known, ends.down, ends.up);
    if settle_feeds(wires, weights, held, known, room, mask | rest) {
        Step::Moved
    } else {
        Step::Still
    }
}

// The rule of a listed gate; a number that is no gate's does nothing.
fn apply_listed(joint: &Tables, held: &mut Held, g: usize) -> Step
    requires { Ready (joint_of joint.now) }
    ensures { Ruled (FitsJoint (joint_of joint.now)) held.old held.new result }
{
    if joint.gates <= g {
        return Step::Still;
    }
    apply_rule(&joint.wires[g], &joint.weights[g], held, joint.inputs + g)
}

// The rules of the listed gates, once each: rounds go through the list up and down by turns.
fn apply_round(joint: &Tables, list: &[u16], held: &mut Held, round: usize) -> Step
    requires { Ready (joint_of joint.now) }
    ensures { Ruled (FitsJoint (joint_of joint.now)) held.old held.new result }
{
    let mut moved = false;
    let count = list.len();
    for k in 0..count {
        let place = if round % 2 == 0 { k } else { count - 1 - k };
        match apply_listed(joint, held, usize::from(list[place])) {
            Step::Still => {}
            Step::Moved => moved = true,
            Step::Clash(why) => return Step::Clash(why),
        }
    }
    if moved { Step::Moved } else { Step::Still }
}

// The rules of the listed gates in rounds, until nothing moves, at most 32 of them.
pub(crate) fn propagate(joint: &Tables, list: &[u16], held: &mut Held) -> Step
    requires { Ready (joint_of joint.now) }
    ensures { Ruled (FitsJoint (joint_of joint.now)) held.old held.new result }
{
    for round in 0..ROUNDS {
        match apply_round(joint, list, held, round) {
            Step::Moved => {}
            step => return step,
        }
    }
    Step::Moved
}
