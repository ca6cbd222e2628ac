// The network that a line describes, in the notation in which networks are shown, after the number of its inputs:
// inputs 3 gates 3 [ 0 +4 1 +3 ; +5 ] 4 [ 2 +1 3 +2 ; +3 ] outputs 4
// The gate of a step is described as the only gate of a network.
use crate::building::{feed, gate, output, with_board, with_inputs};
use crate::script::{after, byte_at, find, is_digit, number_from, signed_from};
use network::Network;

// The mark that says what a number stands for, after one more byte. The first is i, for the inputs.
fn mark_after(mark: u8, byte: u8) -> u8 {
    match byte {
        b'g' | b'[' | b']' | b'o' => byte,
        _ => mark,
    }
}

// A space, and after it a number without sign: the number of inputs, the signal of a feed, before its weight, or an output. The signal
// of a gate says nothing new.
fn with_number(network: Network, script: &[u8], space: usize, mark: u8) -> Network {
    if !is_digit(byte_at(script, after(space))) {
        return network;
    }
    let n = number_from(script, space);
    match mark {
        b'i' => with_inputs(network, n.value),
        b'[' => feed(network, n.value, signed_from(script, n.end)),
        b'o' => output(network, n.value),
        _ => network,
    }
}

// One byte: a bracket opens a gate, whose threshold stands after the semicolon.
fn with_byte(network: Network, script: &[u8], at: usize, mark: u8) -> Network {
    match byte_at(script, at) {
        b'[' => gate(network, signed_from(script, find(script, at, b';'))),
        b' ' => with_number(network, script, at, mark),
        _ => network,
    }
}

// The network of version 1 that the line from a place on describes.
pub(crate) fn described(script: &[u8], from: usize) -> Network {
    let mut network = with_board(network::blank(), 1, 0, 1);
    let mut mark = b'i';
    for at in from..find(script, from, b'\n') {
        mark = mark_after(mark, byte_at(script, at));
        network = with_byte(network, script, at, mark);
    }
    network
}
