// The test of a record's soundness: a PMN file describes its network, and its spare places hold 0.
#![tactic(auto)]

ghost use Rattle.std.specs.Prelude.{◌≡◌, ◌≤◌, ◌<◌, length, get_or};
ghost use Rattle.basics.specs.Lists.{all, all_from, below, tab};
ghost use Rattle.network.specs.Limits.{gate_ok, gate_signal};
ghost use Rattle.network.specs.Record.{feeds_from, gate_of, place_clear, gate_clear, driver_clear, sound_record};
ghost use Rattle.network.specs.SoundLaws.{feeds_ok};

use network::Network;
use network::unchecked::gates_keep;
use network_limits::{board_sound, counts_sound, in_scale, is_gate, is_zero, weight_sound};

// Whether feeds, a signal and a weight each, are those of a gate with signal own: the signals rise and are below it, and each weight is
// within the limits.
fn feeds_sound(signals: &[u8], weights: &[i32], own: usize) -> bool
    requires { length signals.now ≡ length weights.now }
    ensures { result ≡ feeds_ok 0 own (feeds_from signals.now weights.now 0 (length signals.now)) }
{
    // Kept: each feed is tested, and no turn leaves the loop, so that the tests run side by side.
    let mut ok = true;
    let mut low: usize = 0;
    for (signal, weight) in signals.iter().zip(weights) {
        let s = usize::from(*signal);
        ok = ok & (low <= s) & (s < own) & weight_sound(*weight);
        low = s + 1;
    }
    ok
}

// Whether gate g, with signal own, is within the limits.
fn gate_sound(network: &Network, g: usize, own: usize) -> bool
    requires { g < 128 }
    ensures { result ≡ gate_ok own (gate_of network.now g) }
{
    let count = usize::from(network.fanins[g]);
    if 16 < count {
        return false;
    }
    let base = 16 * g;
    let end = base + count;
    let signals = &network.signals[base..end];
    let weights = &network.weights[base..end];
    in_scale(network.thresholds[g]) & feeds_sound(signals, weights, own)
}

// Whether each gate is within the limits.
fn gates_sound(network: &Network) -> bool
    requires { (network.now.inputs ≤ 40) × (network.now.gates ≤ 128) }
    ensures { result ≡ all_from gate_ok network.now.inputs (tab network.now.gates (gate_of network.now)) }
{
    let inputs = network.inputs;
    (0..network.gates).all(|g| gate_sound(network, g, inputs + g))
}

// Whether each output is the signal of a gate.
fn drivers_sound(network: &Network) -> bool
    requires { network.now.outputs ≤ 16 }
    ensures { result ≡ all (gate_signal network.now.inputs network.now.gates)
        (tab network.now.outputs (λ j. get_or network.now.drivers j 0)) }
{
    let inputs = network.inputs;
    let gates = network.gates;
    network.drivers[..network.outputs]
        .iter()
        .all(|driver| is_gate(inputs, gates, usize::from(*driver)))
}

// Whether the feed counts and thresholds past the last gate are 0.
fn gates_clear(network: &Network) -> bool
    requires { network.now.gates ≤ 128 }
    ensures { result ≡ below 128 (gate_clear network.now.gates network.now.fanins network.now.thresholds) }
{
    let fanins_clear = network.fanins[network.gates..]
        .iter()
        .all(|fanin| *fanin == 0);
    fanins_clear
        & network.thresholds[network.gates..]
            .iter()
            .all(|threshold| is_zero(*threshold))
}

// Whether place p is a feed's, or holds 0.
fn place_clear(network: &Network, p: usize) -> bool
    requires { p < 2048 }
    ensures { result ≡ place_clear network.now.gates network.now.fanins network.now.signals network.now.weights p }
{
    let g = p / 16;
    let used = (g < network.gates) & (p % 16 < usize::from(network.fanins[g]));
    used | ((network.signals[p] == 0) & is_zero(network.weights[p]))
}

// Whether each place that is no feed's holds 0.
fn places_clear(network: &Network) -> bool
    ensures { result ≡ below 2048 (place_clear network.now.gates network.now.fanins network.now.signals network.now.weights) }
{
    // Kept: each place is tested, so that the tests run side by side; `all` would leave at the first that fails.
    let mut ok = true;
    for p in 0..2048 {
        ok = ok & place_clear(network, p);
    }
    ok
}

// Whether the signals past the last output are 0.
fn drivers_clear(network: &Network) -> bool
    requires { network.now.outputs ≤ 16 }
    ensures { result ≡ below 16 (driver_clear network.now.outputs network.now.drivers) }
{
    network.drivers[network.outputs..]
        .iter()
        .all(|driver| *driver == 0)
}

// Whether a record is sound.
pub fn is_sound(network: Network) -> bool
    ensures { result ≡ sound_record network }
{
    if !board_sound(network.board) {
        return false;
    }
    if !counts_sound(network.inputs, network.gates, network.outputs) {
        return false;
    }
    let gates_ok = gates_sound(&network);
    let outputs_ok = drivers_sound(&network);
    let spare_ok = gates_clear(&network) & places_clear(&network) & drivers_clear(&network);
    if !(gates_ok & outputs_ok & spare_ok) {
        return false;
    }
    gates_keep(&network)
}
