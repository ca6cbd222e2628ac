// A network put together from an empty one, step by step: gates in rising order, the feeds after their gate, the outputs last. Places go
// round: a step for which there is no place writes to another one.
use network::{Board, Network};

// The network with a version, an on margin and an off margin.
pub(crate) fn with_board(network: Network, version: usize, on: usize, off: usize) -> Network {
    let board = Board {
        version: (version % 256) as u8,
        on: (on % 256) as u8,
        off: (off % 256) as u8,
    };
    let mut result = network;
    result.board = board;
    result
}

// The network with so many inputs.
pub(crate) fn with_inputs(network: Network, inputs: usize) -> Network {
    let mut result = network;
    result.inputs = inputs;
    result
}

// One more gate, still without feeds.
pub(crate) fn gate(network: Network, threshold: i32) -> Network {
    let g = network.gates % 128;
    let mut result = network;
    result.gates = g + 1;
    result.thresholds[g] = threshold;
    result
}

// One more feed of the last gate.
pub(crate) fn feed(network: Network, signal: usize, weight: i32) -> Network {
    let g = std::num::wrapping_sub_usize(network.gates, 1) % 128;
    let i = usize::from(network.fanins[g]) % 16;
    let p = 16 * g + i;
    let mut result = network;
    result.fanins[g] = (i + 1) as u8;
    result.signals[p] = (signal % 256) as u8;
    result.weights[p] = weight;
    result
}

// One more output.
pub(crate) fn output(network: Network, signal: usize) -> Network {
    let j = network.outputs % 16;
    let mut result = network;
    result.outputs = j + 1;
    result.drivers[j] = (signal % 256) as u8;
    result
}

// A place of the feeds, and the signal that is put there, whether or not it is the place of a feed.
pub(crate) fn with_signal(network: Network, place: usize, signal: usize) -> Network {
    let p = place % 2048;
    let mut result = network;
    result.signals[p] = (signal % 256) as u8;
    result
}
