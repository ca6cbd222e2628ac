// Who reads a signal: the gates that have it among their feeds, and the outputs.
ghost use Rattle.std.specs.Prelude.{◌≡◌, not, ◌≤◌, ◌<◌, get_or, length};
ghost use Rattle.basics.specs.Lists.{all, keep, other};
ghost use Rattle.network.specs.Record.{gate_of};
ghost use Rattle.network.specs.Places.{Counted};
ghost use Rattle.fold_theory.specs.Merge.{reads};
ghost use Rattle.fold_readers.specs.Arrays.{gates_in};
ghost use Rattle.fold_readers.specs.Readers.{occurs};

use network::Network;

// Whether a signal is one of those listed.
fn has_signal(signals: &[u8], signal: usize) -> bool
    ensures { result ≡ not (all (other signal) signals.now) }
{
    signals.iter().any(|&s| usize::from(s) == signal)
}

// Whether a signal is one of the outputs'.
pub fn is_output(network: &Network, signal: usize) -> bool
    requires { network.now.outputs ≤ 16 }
    ensures { result ≡ occurs network.now.drivers 0 network.now.outputs signal }
{
    has_signal(&network.drivers[..network.outputs], signal)
}

// Whether gate g reads a signal.
pub fn reads_gate(network: &Network, g: usize, signal: usize) -> bool
    requires { (g < 128) × (get_or network.now.fanins g 0 ≤ 16) }
    ensures { result ≡ reads signal (gate_of network.now g) }
{
    let first = 16 * g;
    let end = first + usize::from(network.fanins[g]);
    has_signal(&network.signals[first..end], signal)
}

// How many gates read a signal.
pub fn count_readers(network: &Network, signal: usize) -> usize
    requires { Counted network.now.fanins network.now.gates }
    ensures { result ≡ length (keep (reads signal)
        (gates_in network.now.fanins network.now.thresholds network.now.signals network.now.weights network.now.gates)) }
{
    (0..network.gates)
        .filter(|&g| reads_gate(network, g, signal))
        .count()
}
