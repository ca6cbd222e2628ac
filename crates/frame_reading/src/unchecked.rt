// Evaluation of a sound record on a frame: the bits of all signals, gate by gate, then the outputs' bits as a word and their count.
ghost use Rattle.std.specs.Prelude.{◌≡◌, true, map, ◌+◌, ◌≤◌, ◌<◌, get_or};
ghost use Rattle.basics.specs.Lists.{tab};
ghost use Rattle.basics.specs.Refusals.{accepted};
ghost use Rattle.network.specs.Threshold.{sum, bit, run, frame, fits_frame, output_bits, word_of};
ghost use Rattle.network.specs.Record.{feeds_from, gate_of, net_of, sound_record};
ghost use Rattle.frame_reading.specs.Reading.{as_reading, reading};
ghost use Rattle.frame_reading.specs.Evaluation.{bits_in, CanRun};

use crate::Reading;
use network::Network;

// The bits of the inputs on frame x; every other place is 0.
fn input_values(x: u64, inputs: usize) -> [bool; 256]
    requires { (inputs ≤ 40) × (fits_frame inputs x ≡ true) }
    ensures { bits_in result ≡ frame x }
{
    let mut values = [false; 256];
    for i in 0..inputs {
        values[i] = (x >> i) % 2 == 1;
    }
    values
}

// The sum of the weights whose signals are 1, over the feeds at count places from base on.
fn gate_sum(network: &Network, values: &[bool; 256], base: usize, count: usize) -> i64
    requires { (base + count ≤ 2048) × (count ≤ 16) }
    ensures { result ≡ sum (bits_in values.now) (feeds_from network.now.signals network.now.weights base count) }
{
    let signals = &network.signals[base..base + count];
    let weights = &network.weights[base..base + count];
    let mut total = 0;
    for (signal, weight) in signals.iter().zip(weights) {
        total += i64::from(values[usize::from(*signal)]) * i64::from(*weight);
    }
    total
}

// Gate g's bit, given the bits of the signals below it.
fn gate_bit(network: &Network, values: &[bool; 256], g: usize) -> bool
    requires { (g < 128) × (get_or network.now.fanins g 0 ≤ 16) }
    ensures { result ≡ bit (bits_in values.now) (gate_of network.now g) }
{
    let count = usize::from(network.fanins[g]);
    i64::from(network.thresholds[g]) <= gate_sum(network, values, 16 * g, count)
}

// The bits of all signals on frame x.
fn signal_values(network: &Network, x: u64) -> [bool; 256]
    requires { CanRun network.now.fanins network.now.inputs network.now.gates x }
    ensures { bits_in result ≡ run network.now.inputs (tab network.now.gates (gate_of network.now)) (frame x) }
{
    let mut values = input_values(x, network.inputs);
    for g in 0..network.gates {
        values[network.inputs + g] = gate_bit(network, &values, g);
    }
    values
}

// The output word: output j in bit j.
fn output_word(drivers: &[u8; 16], values: &[bool; 256], outputs: usize) -> u64
    requires { outputs ≤ 16 }
    ensures { result ≡ word_of (map (bits_in values.now) (tab outputs (λ j. get_or drivers.now j 0))) }
{
    let mut word = 0;
    for j in (0..outputs).rev() {
        word = 2 * word + u64::from(values[usize::from(drivers[j])]);
    }
    word
}

// The outputs on frame x.
fn read_outputs(network: &Network, x: u64) -> Reading
    requires network_value { sound_record network.now ≡ true }
    requires x_value { fits_frame network.now.inputs x ≡ true }
    ensures { result ≡ as_reading (accepted (output_bits (net_of network.now) (frame x))) }
{
    let values = signal_values(network, x);
    let bits = output_word(&network.drivers, &values, network.outputs);
    Reading {
        code: 0,
        bits,
        ones: bits.count_ones(),
    }
}

// Whether a frame has no bit at an input's number or above.
#[tactic(auto, unfolding(network::specs::Threshold::fits_frame))]
pub fn fits_frame(inputs: usize, frame: u64) -> bool
    requires { inputs ≤ 40 }
    ensures { result ≡ fits_frame inputs frame }
{
    (frame >> inputs) == 0
}

// A refusal: 0 for every number.
pub fn refused(code: u8) -> Reading
    ensures { result ≡ record { code = code; bits = 0; ones = 0 } }
{
    Reading {
        code,
        bits: 0,
        ones: 0,
    }
}

// The outputs on a frame, of a sound record. Refusal: 10 long frame.
pub fn read_sound(network: Network, frame: u64) -> Reading
    requires { sound_record network ≡ true }
    ensures { result ≡ reading network frame }
{
    if !fits_frame(network.inputs, frame) {
        return refused(10);
    }
    read_outputs(&network, frame)
}
