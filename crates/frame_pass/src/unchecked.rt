// The pass, in the lanes: the inputs of each frame, then the gates in order, and then the output words.
ghost use Rattle.std.specs.Prelude.{◌≡◌, map, ◌≤◌, ◌<◌, length, get_or};
ghost use Rattle.basics.specs.Lists.{tab};
ghost use Rattle.network.specs.Threshold.{bit, run, frame, word_of};
ghost use Rattle.network.specs.Record.{gate_of};
ghost use Rattle.frame_reading.specs.Evaluation.{bits_in};
ghost use Rattle.frame_lanes.specs.Lanes.{lane, CanPut};
ghost use Rattle.frame_pass.specs.Batch.{Readable, FirstWords};
ghost use Rattle.frame_pass.specs.Lanes.{LanesPut, Lanes, LaneWords, CanPutInput, CanPutInputs, CanRunLanes};

use frame_lanes::unchecked::{mask_of, put_block};
use network::Network;

// Input i of each frame.
#[tactic(auto, unfolding(network::specs::Threshold::frame))]
fn put_input(masks: &mut [i32; 16384], frames: &[u64], i: usize)
    requires { CanPutInput masks.old frames.now i }
    ensures { LanesPut i (length frames.now) (λ f. frame (get_or frames.now f 0) i) masks.old masks.new }
{
    for (f, frame) in frames.iter().enumerate() {
        masks[64 * i + f] = mask_of((*frame >> i) % 2 == 1);
    }
}

// The inputs of each frame, put into masks that are all 0.
fn put_inputs(masks: &mut [i32; 16384], frames: &[u64], inputs: usize)
    requires { CanPutInputs masks.old frames.now inputs }
    ensures { Lanes (length frames.now) (λ f. frame (get_or frames.now f 0)) masks.new }
{
    for i in 0..inputs {
        put_input(masks, frames, i);
    }
}

// Gate g, with signal own, in the first lanes: so many of them, and others whose bits nothing reads.
fn put_gate(network: &Network, masks: &mut [i32; 16384], g: usize, own: usize, lanes: usize)
    requires can_put { CanPut network.now.fanins network.now.weights masks.old g own 0 }
    requires lanes_bound { lanes ≤ 64 }
    ensures { LanesPut own lanes (λ f. bit (bits_in (lane masks.old f)) (gate_of network.now g)) masks.old masks.new }
{
    put_block(network, masks, g, own, 0);
    if 32 < lanes {
        put_block(network, masks, g, own, 32);
    }
}

// The gates in order, each in the first lanes.
fn run_gates(network: &Network, masks: &mut [i32; 16384], lanes: usize)
    requires { CanRunLanes network.now.fanins network.now.weights masks.old network.now.inputs network.now.gates lanes }
    ensures { Lanes lanes
        (λ f. run network.now.inputs (tab network.now.gates (gate_of network.now)) (bits_in (lane masks.old f))) masks.new }
{
    for g in 0..network.gates {
        put_gate(network, masks, g, network.inputs + g, lanes);
    }
}

// The output word of lane f: output j in bit j.
fn lane_word(drivers: &[u8; 16], masks: &[i32; 16384], outputs: usize, f: usize) -> u64
    requires { (outputs ≤ 16) × (f < 64) }
    ensures { result ≡ word_of (map (bits_in (lane masks.now f)) (tab outputs (λ j. get_or drivers.now j 0))) }
{
    let mut word = 0;
    for j in (0..outputs).rev() {
        let on = masks[64 * usize::from(drivers[j]) + f] < 0;
        word = 2 * word + u64::from(on);
    }
    word
}

// The output words of the first lanes.
fn lane_words(drivers: &[u8; 16], masks: &[i32; 16384], outputs: usize, lanes: usize) -> [u64; 64]
    requires { (outputs ≤ 16) × (lanes ≤ 64) }
    ensures { LaneWords masks.now (λ j. get_or drivers.now j 0) outputs lanes result }
{
    let mut words = [0; 64];
    for (f, word) in words[..lanes].iter_mut().enumerate() {
        *word = lane_word(drivers, masks, outputs, f);
    }
    words
}

// The output words of up to 64 frames that fit a sound record, that of frame i at place i.
pub fn frame_words(network: &Network, frames: &[u64]) -> [u64; 64]
    requires { Readable network.now frames.now }
    ensures { FirstWords network.now frames.now result }
{
    let lanes = frames.len();
    let mut masks = [0; 16384];
    put_inputs(&mut masks, frames, network.inputs);
    run_gates(network, &mut masks, lanes);
    lane_words(&network.drivers, &masks, network.outputs, lanes)
}
