// A gate removed from the places of a record.
ghost use Rattle.std.specs.Prelude.{◌≡◌, map, ◌+◌, ◌≤◌, ◌<◌, length};
ghost use Rattle.network.specs.Changes.{lowered};
ghost use Rattle.network.specs.Places.{without_places};
ghost use Rattle.network.specs.Sound.{HasSignal};
ghost use Rattle.network_places.specs.Removal.{RemovedFrom};
ghost use Rattle.network_removal.specs.Removing.{PlacesRemoved};

use network::Network;

// The places without the gap ones from place first on, and a spare in each place past their end.
fn close_gap<T: Copy>(places: &mut [T], first: usize, gap: usize, spare: T)
    requires in_places { first + gap ≤ length places.old }
    requires copied { T.is_infallible spare × ((y : T) → T.is_clone spare y → y ≡ spare) }
    ensures { places.new ≡ without_places spare (length places.old) first gap places.old }
{
    let end = places.len() - gap;
    places.copy_within(first + gap.., first);
    places[end..].fill(spare);
}

// A signal after the gate with signal u is gone: a higher one falls by one.
#[tactic(auto, using(network::specs::ChangeLaws::lowered_high, network::specs::ChangeLaws::lowered_low))]
fn lower(u: usize, signal: u8) -> u8
    ensures { result ≡ lowered u signal }
{
    if u < usize::from(signal) {
        signal - 1
    } else {
        signal
    }
}

// Signals after the gate with signal u is gone. Each is written, so that many are at once.
fn lower_all(signals: &mut [u8], u: usize)
    ensures { signals.new ≡ map (lowered u) signals.old }
{
    for signal in signals {
        *signal = lower(u, *signal);
    }
}

// Gate g, which has signal u, taken out of a record's places; higher signals fall by one. The count of gates stays.
pub fn remove_places(network: &mut Network, g: usize, u: usize)
    requires { g < 128 }
    ensures { PlacesRemoved g u network.old network.new }
{
    close_gap(&mut network.fanins, g, 1, 0);
    close_gap(&mut network.thresholds, g, 1, 0);
    close_gap(&mut network.signals, 16 * g, 16, 0);
    close_gap(&mut network.weights, 16 * g, 16, 0);
    lower_all(&mut network.signals, u);
    lower_all(&mut network.drivers, u);
}

// The gate with signal u taken out of a record; higher signals fall by one.
pub fn remove_gate(network: &mut Network, u: usize)
    requires { HasSignal network.old.inputs network.old.gates u × (network.old.gates ≤ 128) }
    ensures { RemovedFrom u network.old network.new }
{
    let g = u - network.inputs;
    remove_places(network, g, u);
    network.gates -= 1;
}
