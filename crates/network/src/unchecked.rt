// The margins of gates at their places. Each call asks for gates whose feed counts, weights and thresholds are within the limits.
ghost use Rattle.std.specs.Prelude.{◌≡◌};
ghost use Rattle.gate_margins.specs.Tables.{OnScale};
ghost use Rattle.network.specs.Limits.{weights_of, keeps};
ghost use Rattle.network.specs.Record.{gate_in};
ghost use Rattle.network.specs.Margins.{RecordOnScale, record_keeps};

use super::{Board, GateRecord, Network};
use gate_margins::unchecked::keeps_margins;

// Whether a gate keeps the margins.
pub fn gate_keeps(gate: GateRecord, board: Board) -> bool
    requires { OnScale (weights_of (gate_in gate).feeds) gate.threshold }
    ensures { result ≡ keeps board (gate_in gate) }
{
    let count = usize::from(gate.fanin);
    keeps_margins(&gate.weights[..count], gate.threshold, board.on, board.off)
}

// Whether each gate keeps the margins, gate by gate.
fn each_keeps(network: &Network) -> bool
    requires { RecordOnScale network.now }
    ensures { result ≡ record_keeps network.now }
{
    let board = network.board;
    for g in 0..network.gates {
        let base = 16 * g;
        let end = base + usize::from(network.fanins[g]);
        let weights = &network.weights[base..end];
        if !keeps_margins(weights, network.thresholds[g], board.on, board.off) {
            return false;
        }
    }
    true
}

// The same, where the margins of version 1 need no test.
pub fn gates_keep(network: &Network) -> bool
    requires { RecordOnScale network.now }
    ensures { result ≡ record_keeps network.now }
{
    let board = network.board;
    if (board.on == 0) & (board.off == 1) {
        return true;
    }
    each_keeps(network)
}
