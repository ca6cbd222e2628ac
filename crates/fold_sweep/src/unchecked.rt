// The choice of the gate that a sweep of a sound record folds next.
ghost use Rattle.std.specs.Prelude.{◌≡◌, true, T};
ghost use Rattle.network.specs.Limits.{board_ok};
ghost use Rattle.network.specs.Sound.{HasSignal};
ghost use Rattle.network.specs.Record.{net_of, sound_record};
ghost use Rattle.fold_readers.specs.Arrays.{SoundGates};
ghost use Rattle.fold_reader_pairs.specs.Collapsing.{TriedPairs};
ghost use Rattle.fold_sweep.specs.Sweeping.{Chosen};
ghost use Rattle.fold_sweep.specs.Memory.{Remembered, RememberedAfter};

use crate::Choice;
use fold_memory::Memory;
use fold_reader_pairs::unchecked::{reader_pair, reader_pairs};
use fold_reader_pairs::{Pairs, Refuser};
use fold_readers::unchecked::{count_readers, is_output};
use network::Network;

// The pairs of all readers of u. The gate with number hint is tried first: if it is a reader whose pair is refused, there is no need to
// try the others.
fn hinted_pairs(network: &Network, u: usize, hint: usize) -> Result<Pairs, Refuser>
    requires { SoundGates network.now × HasSignal network.now.inputs network.now.gates u
        × T (board_ok network.now.board) }
    ensures { TriedPairs network.now u result }
{
    if hint < network.gates {
        if let Err(refusal) = reader_pair(network, u, hint) {
            return Err(Refuser {
                reader: hint,
                refusal,
            });
        }
    }
    reader_pairs(network, u).map_err(|first| first.refuser)
}

// The lowest gate with at most b readers that can be collapsed into them. A gate with a known refuser is passed over. A hint is the reader
// that refused a gate the last time; any hints give the same answer. Where a gate is found, the memory is left as it is after its collapse.
pub fn lowest_collapsible(network: &Network, b: usize, memory: &mut Memory) -> Option<Choice>
    requires { (sound_record network.now ≡ true) × Remembered (net_of network.now) memory.old.refusers }
    ensures { Chosen network.now b result × RememberedAfter network.now result memory.new.refusers }
{
    for g in 0..network.gates {
        if memory.refusers[g] < 128 {
            continue;
        }
        let u = network.inputs + g;
        if b < count_readers(network, u) || is_output(network, u) {
            continue;
        }
        match hinted_pairs(network, u, usize::from(memory.hints[g])) {
            Ok(pairs) => {
                memory.collapse(&pairs.ks, g);
                return Some(Choice { u, pairs });
            }
            Err(refuser) => {
                let last = refuser.reader as u8;
                memory.hints[g] = last;
                memory.refusers[g] = last;
            }
        }
    }
    None
}
