// The pairs of a gate's readers in a sound record.
ghost use Rattle.std.specs.Prelude.{◌≡◌, true, ◌<◌, T};
ghost use Rattle.network.specs.Limits.{board_ok};
ghost use Rattle.network.specs.Sound.{HasSignal};
ghost use Rattle.network.specs.Record.{gate_of, sound_record};
ghost use Rattle.fold_pair.specs.Parts.{pair_answer};
ghost use Rattle.fold_readers.specs.Arrays.{SoundGates};
ghost use Rattle.fold_reader_pairs.specs.Collapsing.{edge_to, reader_pair, ReaderPairs, PairsTried};

use crate::{FirstRefuser, Pairs, Refuser};
use fold_edges::unchecked::aligned_at;
use fold_pair::Multipliers;
use fold_pair::unchecked::pair_of;
use fold_readers::unchecked::{is_output, reads_gate};
use network::Network;
use network_limits::is_gate;
use refusals::Refusal;

// The pair of gate g as a reader of u; 0 and 0 where it is none. Refusals: 7 too wide, 16 no pair.
pub fn reader_pair(network: &Network, u: usize, g: usize) -> Result<Multipliers, Refusal>
    requires { SoundGates network.now × HasSignal network.now.inputs network.now.gates u
        × (g < network.now.gates) × T (board_ok network.now.board) }
    ensures { pair_answer result
        ≡ reader_pair (edge_to network.now.board (gate_of network.now) network.now.inputs u g) }
{
    if !reads_gate(network, g, u) {
        return Ok(Multipliers { k: 0, l: 0 });
    }
    pair_of(aligned_at(network, u, network.inputs + g))
}

// The pairs of all readers of u, in rising order, or the first reader whose pair is refused, with the pairs of the readers before it.
pub fn reader_pairs(network: &Network, u: usize) -> Result<Pairs, FirstRefuser>
    requires { SoundGates network.now × HasSignal network.now.inputs network.now.gates u
        × T (board_ok network.now.board) }
    ensures { ReaderPairs network.now u result }
{
    let mut pairs = Pairs {
        ks: [0; 128],
        ls: [0; 128],
    };
    for g in 0..network.gates {
        match reader_pair(network, u, g) {
            Ok(pair) => {
                pairs.ks[g] = pair.k as u8;
                pairs.ls[g] = pair.l as u8;
            }
            Err(refusal) => {
                let refuser = Refuser { reader: g, refusal };
                return Err(FirstRefuser { refuser, pairs });
            }
        }
    }
    Ok(pairs)
}

// The pairs with which the gate with signal s can be collapsed into all of its readers. Refusals of its collapse: 11 no such gate, 17 still read
// (an output), then the first reader's 7 or 16.
pub fn collapse_pairs(network: &Network, s: usize) -> Result<Pairs, Refusal>
    requires { sound_record network.now ≡ true }
    ensures { PairsTried network.now s result }
{
    if !is_gate(network.inputs, network.gates, s) {
        return Err(Refusal::NoSuchGate);
    }
    if is_output(network, s) {
        return Err(Refusal::StillRead);
    }
    reader_pairs(network, s).map_err(|first| first.refuser.refusal)
}
