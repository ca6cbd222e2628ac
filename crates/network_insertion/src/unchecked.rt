// A gate put into a record.
ghost use Rattle.std.specs.Prelude.{◌≡◌};
ghost use Rattle.network.specs.Record.{net_of, layout, gate_in, gate_record};
ghost use Rattle.network.specs.Changes.{inserted};
ghost use Rattle.network_insertion.specs.Insertions.{Insertable};

use network::{GateRecord, Network};
use network_gaps::unchecked::{open_gap, raise_all};
use network_places::unchecked::store_gate;

// The record with a gate put in at signal u, which nothing reads; the signals at or above u rise by one.
pub fn insert_gate(network: Network, u: usize, gate: GateRecord) -> Network
    requires { Insertable network u × (gate ≡ gate_record (gate_in gate)) }
    ensures { result ≡ layout (inserted (net_of network) u (gate_in gate)) }
{
    let g = u - network.inputs;
    let mut result = network;
    open_gap(&mut result.fanins, g, 1, 0);
    open_gap(&mut result.thresholds, g, 1, 0);
    open_gap(&mut result.signals, 16 * g, 16, 0);
    open_gap(&mut result.weights, 16 * g, 16, 0);
    raise_all(&mut result.signals, u);
    raise_all(&mut result.drivers, u);
    result.gates += 1;
    store_gate(&mut result, g, gate);
    result
}
