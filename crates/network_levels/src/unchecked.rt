// The levels of the gates of a record that the caller has tested, gate by gate.
ghost use Rattle.std.specs.Prelude.{◌≡◌, List, ℕ, ◌≤◌, ◌<◌, ℤ, length, get_or};
ghost use Rattle.basics.specs.Lists.{tab};
ghost use Rattle.network.specs.Record.{feeds_from, gate_of};
ghost use Rattle.network.specs.Places.{Counted};
ghost use Rattle.network_levels.specs.Levels.{highest, gate_level, levels_from};
ghost use Rattle.network_levels.specs.Arrays.{levels_in};

use network::Network;

// The highest level among feeds with these signals.
fn highest_level(signals: &[u8], levels: &[u8; 256]) -> u8
    ensures { (weights : List ℤ) → result ≡ highest (levels_in levels.now)
        (feeds_from signals.now weights 0 (length signals.now)) }
{
    let mut most: u8 = 0;
    for signal in signals {
        most = most.max(levels[usize::from(*signal)]);
    }
    most
}

// Gate g's level, given the levels of the signals below it: the one rule of levels. A gate without feeds has level 0.
fn gate_level(network: &Network, levels: &[u8; 256], g: usize) -> u8
    requires g_bound { (g < 128) × (get_or network.now.fanins g 0 ≤ 16) }
    requires by_index { (s : ℕ) → levels_in levels.now s ≤ g }
    ensures { result ≡ gate_level (levels_in levels.now) (gate_of network.now g) }
{
    let count = usize::from(network.fanins[g]);
    if count == 0 {
        return 0;
    }
    let base = 16 * g;
    let end = base + count;
    let most = highest_level(&network.signals[base..end], levels);
    most + 1
}

// The highest level of all gates.
pub fn network_levels(network: &Network) -> u8
    requires inputs_bound { network.now.inputs ≤ 40 }
    requires counted { Counted network.now.fanins network.now.gates }
    ensures { result ≡ levels_from network.now.inputs (tab network.now.gates (gate_of network.now)) (λ s. 0) }
{
    let mut levels = [0u8; 256];
    let mut most: u8 = 0;
    for g in 0..network.gates {
        let level = gate_level(network, &levels, g);
        levels[network.inputs + g] = level;
        most = most.max(level);
    }
    most
}
