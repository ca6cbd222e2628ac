// Advice over the rows of a joint.
pub mod notes;

ghost use Rattle.std.specs.Prelude.{◌<◌, ◌≤◌, IfSome};
ghost use Rattle.compare_theory.specs.Joint.{Ready};
ghost use Rattle.compare_theory.specs.Tables.{joint_of};
ghost use Rattle.compare_lanes.specs.Lanes.{Masked};
ghost use Rattle.compare_advice.specs.Advice.{FeedsThere, Looked};

use crate::numbers::{dense, low_half, mixed, next_number};
use crate::unchecked::notes::Notes;
use compare_lanes::unchecked::{LANES, SIGNALS, put_word, rows_apart, run_gates};
use compare_theory::Tables;

// How many outputs a network has at most.
const MOST_OUTPUTS: usize = 16;

// How many densities random frames have.
const DENSITIES: usize = 8;

// What the keys of the lanes are made from, with a mark.
const KEYS_SEED: u64 = 11400714819323198485;

// How often to look if an output is still open, and the number that these frames are made from.
const MORE_TIMES: usize = 8192;

const MORE_SEED: u64 = 88172645463325252;

// With so many inputs there are no more frames than these.
const FEW_INPUTS: usize = 18;

// The signals of a gate's feeds, marked.
fn mark_feeds(row: &[u16; 17], on: &mut [bool; 296])
    requires { FeedsThere row.now }
{
    for i in 0..usize::from(row[0]) {
        on[usize::from(row[1 + i])] = true;
    }
}

// The gates that signals p and q depend on, the last first, put on the list: how many there are.
pub fn cone(joint: &Tables, p: usize, q: usize, list: &mut [u16; 256]) -> usize
    requires { Ready (joint_of joint.now) × (p < 296) × (q < 296) }
    ensures { result ≤ 256 }
{
    let mut on = [false; SIGNALS];
    on[p] = true;
    on[q] = true;
    let mut count: usize = 0;
    for g in (0..joint.gates).rev() {
        if on[joint.inputs + g] {
            list[count] = g as u16;
            count += 1;
            mark_feeds(&joint.wires[g], &mut on);
        }
    }
    count
}

// A key for each lane.
fn lane_keys(seed: u64) -> [u32; 32] {
    let mut keys = [0; LANES];
    let mut x = seed;
    for key in keys.iter_mut() {
        x = next_number(x);
        *key = low_half(x);
    }
    keys
}

// A key, if the mask is on.
fn kept_key(mask: i32, key: u32) -> u32 {
    if mask < 0 { key } else { 0 }
}

// The keys of the lanes in which a signal is lit, added up.
fn lit_keys(row: &[i32; 32], keys: &[u32; 32]) -> u32 {
    let mut sum: u32 = 0;
    for (mask, key) in row.iter().zip(keys) {
        sum = sum.wrapping_add(kept_key(*mask, *key));
    }
    sum
}

// What each signal has in the lanes, mixed into its mark. The keys change with the mark of signal 0.
fn mix_marks(notes: &mut Notes, lanes: &[[i32; 32]; 296], signals: usize)
    requires { signals ≤ 296 }
    ensures { Looked notes.old notes.new }
{
    let keys = lane_keys(KEYS_SEED ^ notes.marks[0]);
    for (mark, row) in notes.marks[..signals].iter_mut().zip(lanes) {
        *mark = mixed(*mark, lit_keys(row, &keys));
    }
}

// The first lane in which signals p and q are apart. If they have one mark they are not.
fn lane_apart(notes: &Notes, lanes: &[[i32; 32]; 296], p: usize, q: usize) -> Option<usize>
    ensures { IfSome result (λ f. f < 32) }
{
    if SIGNALS <= p || SIGNALS <= q || notes.marks[p] == notes.marks[q] {
        return None;
    }
    rows_apart(&lanes[p], &lanes[q])
}

// A lane in which an output's two signals are apart.
fn output_apart(notes: &Notes, lanes: &[[i32; 32]; 296], outs: &[u16; 16]) -> Option<usize>
    ensures { IfSome result (λ f. f < 32) }
{
    for j in 0..MOST_OUTPUTS {
        if let Some(p) = notes.first_signal(j) {
            if let Some(f) = lane_apart(notes, lanes, usize::from(p), usize::from(outs[j])) {
                return Some(f);
            }
        }
    }
    None
}

// The frame of a lane.
fn lane_frame(lanes: &[[i32; 32]; 296], inputs: usize, f: usize) -> u64
    requires { (inputs ≤ 40) × (f < 32) }
{
    let mut frame: u64 = 0;
    for i in 0..inputs {
        frame |= u64::from(lanes[i][f] < 0) << i;
    }
    frame
}

// 32 frames, whose inputs are in the lanes, through the joint: what the signals have on them is mixed into their marks, and a frame on which an
// output's two signals are apart is put down.
pub fn look(joint: &Tables, outs: &[u16; 16], notes: &mut Notes, lanes: &mut [[i32; 32]; 296])
    requires ready { Ready (joint_of joint.now) }
    requires masked { Masked lanes.old }
    ensures { Looked notes.old notes.new × Masked lanes.new }
{
    run_gates(joint, lanes);
    mix_marks(notes, lanes, joint.inputs + joint.gates);
    if let Some(f) = output_apart(notes, lanes, outs) {
        notes.found = Some(lane_frame(lanes, joint.inputs, f));
    }
}

// Random inputs of one density, put into the lanes: the last number that they were made from.
fn put_random(lanes: &mut [[i32; 32]; 296], inputs: usize, kind: usize, seed: u64) -> u64
    requires { Masked lanes.old × (inputs ≤ 40) }
    ensures { Masked lanes.new }
{
    let mut last = seed;
    for i in 0..inputs {
        let x = next_number(last);
        last = next_number(x);
        put_word(lanes, i, dense(kind, x, last));
    }
    last
}

// Random frames, 32 at a time: so many times, or until an output's two signals are apart. The seed is any number but 0.
pub fn look_around(joint: &Tables, outs: &[u16; 16], notes: &mut Notes, times: usize, seed: u64)
    requires { Ready (joint_of joint.now) }
    ensures { Looked notes.old notes.new }
{
    let mut lanes = [[0; LANES]; SIGNALS];
    let mut x = seed;
    for k in 0..times {
        x = put_random(&mut lanes, joint.inputs, k % DENSITIES, x);
        look(joint, outs, notes, &mut lanes);
        if notes.found.is_some() {
            return;
        }
    }
}

// The bits of input i for 32 frames near one: the frame's own, turned in lane i − first.
fn near_word(frame: u64, first: usize, i: usize) -> u64
    requires { i < 64 }
{
    let word = if (frame >> i) % 2 == 1 { u64::MAX } else { 0 };
    if first <= i && i - first < LANES {
        word ^ (1 << (i - first))
    } else {
        word
    }
}

// A frame, put into each lane; in lane f input first + f is turned.
fn put_near(lanes: &mut [[i32; 32]; 296], inputs: usize, frame: u64, first: usize)
    requires { Masked lanes.old × (inputs ≤ 40) }
    ensures { Masked lanes.new }
{
    for i in 0..inputs {
        put_word(lanes, i, near_word(frame, first, i));
    }
}

// A frame and those that differ from it in one input: 32 of them, and the rest if there are so many inputs.
pub fn look_near(joint: &Tables, outs: &[u16; 16], notes: &mut Notes, frame: u64)
    requires { Ready (joint_of joint.now) }
    ensures { Looked notes.old notes.new }
{
    let mut lanes = [[0; LANES]; SIGNALS];
    put_near(&mut lanes, joint.inputs, frame, 0);
    look(joint, outs, notes, &mut lanes);
    if joint.inputs < LANES {
        return;
    }
    put_near(&mut lanes, joint.inputs, frame, LANES);
    look(joint, outs, notes, &mut lanes);
}

// Whether an output's two signals are still different ones, the second network's the later.
fn is_open(notes: &Notes, outs: &[u16; 16]) -> bool {
    for j in 0..MOST_OUTPUTS {
        if let Some(p) = notes.first_signal(j) {
            if p < outs[j] {
                return true;
            }
        }
    }
    false
}

// Many more random frames, if an output is still open, no frame is found, and there are more frames than would be looked at.
pub fn look_more(joint: &Tables, outs: &[u16; 16], notes: &mut Notes)
    requires { Ready (joint_of joint.now) }
    ensures { Looked notes.old notes.new }
{
    if joint.inputs <= FEW_INPUTS || notes.found.is_some() || !is_open(notes, outs) {
        return;
    }
    look_around(joint, outs, notes, MORE_TIMES, MORE_SEED);
}
