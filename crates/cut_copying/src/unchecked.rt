// The marked gates copied with their new signals.
ghost use Rattle.std.specs.Prelude.{◌≡◌, take};
ghost use Rattle.network.specs.Record.{net_of, layout};
ghost use Rattle.network.specs.Places.{SoundGate};
ghost use Rattle.cut_theory.specs.Cut.{cut_by};
ghost use Rattle.cut_marks.specs.Marks.{marks_of};

use cut_marks::Marks;
use cut_signals::unchecked::{new_signals, renamed_row};
use network::Network;
use network_places::unchecked::{gate_at, store_gate};

// The marked gates of a sound record, in their order with new signals, and one output, which names the gate with signal d.
pub fn marked_gates(network: &Network, marks: Marks, d: u8) -> Network
    requires { SoundGate network.now d }
    ensures { result ≡ layout (cut_by (net_of network.now) (take network.now.gates (marks_of marks)) d) }
{
    let numbers = new_signals(marks, network.inputs, network.gates);
    let mut cut = network::blank();
    cut.board = network.board;
    cut.inputs = network.inputs;
    cut.outputs = 1;
    cut.drivers[0] = numbers[usize::from(d)];
    for g in 0..network.gates {
        if marks.has(g) {
            let mut gate = gate_at(network, g);
            gate.signals = renamed_row(&numbers, gate.signals);
            let kept = cut.gates;
            store_gate(&mut cut, kept, gate);
            cut.gates += 1;
        }
    }
    cut
}
