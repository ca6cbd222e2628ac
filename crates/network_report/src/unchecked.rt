// The size of a record that the caller has tested: the cost, gate by gate, and the levels.
ghost use Rattle.std.specs.Prelude.{◌≡◌, true, ◌≤◌, ◌<◌, length, get_or};
ghost use Rattle.basics.specs.Lists.{tab};
ghost use Rattle.network.specs.Record.{gate_of, sound_record};
ghost use Rattle.network.specs.Places.{Counted};
ghost use Rattle.network_report.specs.Size.{cost, reported};
ghost use Rattle.network_report.specs.Arrays.{CostOfWeights, CostOfGate};

use crate::SizeReport;
use network::Network;
use network_levels::unchecked::network_levels;

// The sum of the sizes of a gate's weights.
fn weights_cost(weights: &[i32]) -> u64
    requires { length weights.now ≤ 16 }
    ensures { CostOfWeights weights.now 0 (length weights.now) result }
{
    let mut total: u64 = 0;
    for weight in weights {
        total += u64::from(weight.unsigned_abs());
    }
    total
}

// The cost of gate g: the sizes of its threshold and of its weights.
fn gate_cost(network: &Network, g: usize) -> u64
    requires { (g < 128) × (get_or network.now.fanins g 0 ≤ 16) }
    ensures { CostOfGate network.now.fanins network.now.thresholds network.now.weights g result }
{
    let threshold = u64::from(network.thresholds[g].unsigned_abs());
    let base = 16 * g;
    let end = base + usize::from(network.fanins[g]);
    let total = weights_cost(&network.weights[base..end]);
    threshold + total
}

// The cost of all gates.
fn total_cost(network: &Network) -> u64
    requires { Counted network.now.fanins network.now.gates }
    ensures { result ≡ cost (tab network.now.gates (gate_of network.now)) }
{
    let mut total: u64 = 0;
    for g in 0..network.gates {
        total += gate_cost(network, g);
    }
    total
}

// The size of a sound network. It has a frame of its own.
#[inline(never)]
pub fn size_of(network: &Network) -> SizeReport
    requires { sound_record network.now ≡ true }
    ensures { result ≡ reported network.now }
{
    let cost = total_cost(network);
    let levels = network_levels(network);
    SizeReport {
        code: 0,
        gates: network.gates,
        cost,
        levels: usize::from(levels),
    }
}
