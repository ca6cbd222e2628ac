// Lane f holds the bits of all signals on frame f, for 32 frames: row s has the masks of signal s side by side, so that the processor steps
// several frames at a time.
ghost use Rattle.std.specs.Prelude.{◌≡◌, cond, ◌+◌, ◌^◌, ◌≤◌, ◌<◌, pos, ◌+ℤ◌, get_or};
ghost use Rattle.std.specs.Int.Signed.{le_z};
ghost use Rattle.network.specs.Threshold.{frame, bit};
ghost use Rattle.network.specs.Places.{Pasted};
ghost use Rattle.frame_lanes.specs.Lanes.{is_on};
ghost use Rattle.compare_theory.specs.Joint.{gate_of_rows, Summable, Ready};
ghost use Rattle.compare_theory.specs.Tables.{joint_of};
ghost use Rattle.compare_lanes.specs.Lanes.{lane_bits, Masked, MaskRow, LanesPut, CanAdd, RowSums, FramesPut, GatesRun};
ghost use Rattle.compare_lanes.specs.Reading.{RowsApart, CanCompare, LaneApart, Readable, FramesRead};

use compare_theory::Tables;
use frame_lanes::unchecked::{kept, mask_of};

// How many frames are read at once.
pub const LANES: usize = 32;

// How many signals a joint has at most.
pub const SIGNALS: usize = 296;

// The masks of a word: that of bit f in lane f.
#[tactic(auto, unfolding(network::specs::Threshold::frame))]
fn word_row(word: u64) -> [i32; 32]
    ensures { MaskRow (frame word) result }
{
    let mut row = [0; LANES];
    for f in 0..LANES {
        row[f] = mask_of((word >> f) % 2 == 1);
    }
    row
}

// Signal i gets bit f of the word in lane f.
pub fn put_word(lanes: &mut [[i32; 32]; 296], i: usize, word: u64)
    requires masked { Masked lanes.old }
    requires i_bound { i < 296 }
    ensures { LanesPut i (frame word) lanes.old lanes.new }
{
    lanes[i] = word_row(word);
}

// The masks of input i on 32 frames: that of the frame first + f in lane f.
#[tactic(auto, unfolding(network::specs::Threshold::frame))]
fn frame_row(first: u64, i: usize) -> [i32; 32]
    requires { (first ≤ 1099511627776) × (i < 64) }
    ensures { MaskRow (λ f. frame (first + f) i) result }
{
    let mut row = [0; LANES];
    for f in 0..LANES {
        row[f] = mask_of(((first + f as u64) >> i) % 2 == 1);
    }
    row
}

// The inputs of lane f get the bits of the frame first + f.
fn put_frames(lanes: &mut [[i32; 32]; 296], inputs: usize, first: u64)
    requires masked { Masked lanes.old }
    requires inputs_bound { (inputs ≤ 40) × (first ≤ 1099511627776) }
    ensures { FramesPut inputs first lanes.new }
{
    for i in 0..inputs {
        lanes[i] = frame_row(first, i);
    }
}

// A feed added to the sums of 32 lanes: its weight where its mask is on.
fn add_feed(sums: &mut [i32; 32], row: &[i32; 32], weight: i32)
    requires { CanAdd sums.old row.now weight }
    ensures { Pasted (pos 0) 0 32 (λ f. get_or sums.old f (pos 0) +ℤ cond (is_on (get_or row.now f (pos 0))) weight (pos 0))
        sums.old sums.new }
{
    for f in 0..LANES {
        sums[f] += kept(row[f], weight);
    }
}

// The sums of a gate's feeds, in 32 lanes.
fn row_sums(wires: &[u16; 17], weights: &[i32; 17], lanes: &[[i32; 32]; 296]) -> [i32; 32]
    requires summable { Summable wires.now weights.now }
    requires masked { Masked lanes.now }
    ensures { RowSums lanes.now wires.now weights.now result }
{
    let mut sums = [0; LANES];
    for i in 0..usize::from(wires[0]) {
        let signal = usize::from(wires[1 + i]);
        add_feed(&mut sums, &lanes[signal], weights[1 + i]);
    }
    sums
}

// The masks of 32 lanes by their sums and the threshold.
fn threshold_row(sums: &[i32; 32], threshold: i32) -> [i32; 32]
    ensures { MaskRow (λ f. le_z threshold (get_or sums.now f (pos 0))) result }
{
    let mut row = [0; LANES];
    for f in 0..LANES {
        row[f] = mask_of(threshold <= sums[f]);
    }
    row
}

// The masks of a gate by its two rows, from the masks of its feeds.
fn gate_row(wires: &[u16; 17], weights: &[i32; 17], lanes: &[[i32; 32]; 296]) -> [i32; 32]
    requires summable { Summable wires.now weights.now }
    requires masked { Masked lanes.now }
    ensures { MaskRow (λ f. bit (lane_bits lanes.now f) (gate_of_rows wires.now weights.now)) result }
{
    let sums = row_sums(wires, weights, lanes);
    threshold_row(&sums, weights[0])
}

// The gates of the joint in order, each in 32 lanes.
pub fn run_gates(joint: &Tables, lanes: &mut [[i32; 32]; 296])
    requires ready { Ready (joint_of joint.now) }
    requires masked { Masked lanes.old }
    ensures { GatesRun (joint_of joint.now) lanes.old lanes.new }
{
    for g in 0..joint.gates {
        lanes[joint.inputs + g] = gate_row(&joint.wires[g], &joint.weights[g], lanes);
    }
}

// The first lane in which two rows of masks are apart.
pub fn rows_apart(a: &[i32; 32], b: &[i32; 32]) -> Option<usize>
    ensures { RowsApart a.now b.now result }
{
    a.iter().zip(b).position(|(x, y)| *x != *y)
}

// A lane in which the two signals of an output are apart.
fn lane_apart(
    lanes: &[[i32; 32]; 296],
    drivers: &[u8; 16],
    outs: &[u16; 16],
    outputs: usize,
) -> Option<usize>
    requires masked { Masked lanes.now }
    requires can_compare { CanCompare drivers.now outs.now outputs }
    ensures { LaneApart lanes.now drivers.now outs.now outputs result }
{
    for j in 0..outputs {
        let driver = usize::from(drivers[j]);
        let out = usize::from(outs[j]);
        if let Some(lane) = rows_apart(&lanes[driver], &lanes[out]) {
            return Some(lane);
        }
    }
    None
}

// How many frames there are with so many inputs.
pub fn frame_count(inputs: usize) -> u64
    requires { inputs ≤ 40 }
    ensures { (result ≡ 2 ^ inputs) × (0 < result) × (result ≤ 1099511627776) }
{
    1 << inputs
}

// The frames from one on, below an end, are read, 32 at a time, up to the first on which the two signals of an output are apart. The last of them may
// be followed by others.
pub fn read_frames(
    joint: &Tables,
    drivers: &[u8; 16],
    outs: &[u16; 16],
    outputs: usize,
    from: u64,
    end: u64,
) -> Option<u64>
    requires readable { Readable (joint_of joint.now) drivers.now outs.now outputs }
    requires from_bound { (from ≤ 1099511627776) × (end ≤ 1099511627776) }
    ensures { FramesRead (joint_of joint.now) drivers.now outs.now outputs from end result }
{
    let mut lanes = [[0; LANES]; SIGNALS];
    let frames = frame_count(joint.inputs);
    let mut first = from;
    // Kept: with `step_by` what holds after the last turn stayed open.
    while first < end {
        put_frames(&mut lanes, joint.inputs, first);
        run_gates(joint, &mut lanes);
        if let Some(f) = lane_apart(&lanes, drivers, outs, outputs) {
            return Some((first + f as u64) % frames);
        }
        first += 32;
    }
    None
}
