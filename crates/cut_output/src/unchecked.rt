// The cut of a sound record: the gates that the output needs are marked, and the marked ones copied with new signals.
ghost use Rattle.std.specs.Prelude.{◌≡◌, true, ◌<◌};
ghost use Rattle.network.specs.Record.{net_of, layout, sound_record};
ghost use Rattle.cut_theory.specs.Cut.{named, cut_net};

use cut_copying::unchecked::marked_gates;
use cut_marking::unchecked::needed_gates;
use network::Network;

// The cut of output j, of a sound record. It has a frame of its own.
#[inline(never)]
pub fn cut_sound(network: &Network, j: usize) -> Network
    requires { (sound_record network.now ≡ true) × (j < network.now.outputs) }
    ensures { result ≡ layout (cut_net (net_of network.now) (named (net_of network.now) j)) }
{
    let d = network.drivers[j];
    let marks = needed_gates(network, usize::from(d) - network.inputs);
    marked_gates(network, marks, d)
}
