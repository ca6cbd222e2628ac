// The places of a record: a gate taken out, a gate stored, and a gate replaced.
ghost use Rattle.std.specs.Prelude.{◌≡◌, ◌<◌};
ghost use Rattle.network.specs.Record.{net_of, layout, gate_in, gate_record};
ghost use Rattle.network.specs.Changes.{with_gate};
ghost use Rattle.network.specs.Places.{SoundGate};
ghost use Rattle.network_places.specs.Parts.{row_in, StoredIn};

use network::{GateRecord, Network};

// Gate g of a record, in the form of its 16 places.
pub fn gate_at(network: &Network, g: usize) -> GateRecord
    requires { g < 128 }
    ensures { result ≡ row_in network.now g }
{
    let first = 16 * g;
    let mut gate = GateRecord {
        fanin: network.fanins[g],
        threshold: network.thresholds[g],
        signals: [0; 16],
        weights: [0; 16],
    };
    gate.signals
        .copy_from_slice(&network.signals[first..first + 16]);
    gate.weights
        .copy_from_slice(&network.weights[first..first + 16]);
    gate
}

// A gate stored as gate g.
pub fn store_gate(network: &mut Network, g: usize, gate: GateRecord)
    requires { g < 128 }
    ensures { StoredIn g gate network.old network.new }
{
    let first = 16 * g;
    network.fanins[g] = gate.fanin;
    network.thresholds[g] = gate.threshold;
    network.signals[first..first + 16].copy_from_slice(&gate.signals);
    network.weights[first..first + 16].copy_from_slice(&gate.weights);
}

// The record with a gate in the place of the one with signal v.
pub fn replace_gate(network: Network, v: usize, gate: GateRecord) -> Network
    requires { SoundGate network v × (gate ≡ gate_record (gate_in gate)) }
    ensures { result ≡ layout (with_gate (net_of network) v (gate_in gate)) }
{
    let mut after = network;
    store_gate(&mut after, v - network.inputs, gate);
    after
}
