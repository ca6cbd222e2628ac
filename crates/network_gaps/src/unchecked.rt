// Places put into arrays, and signals raised.
ghost use Rattle.std.specs.Prelude.{◌≡◌, map, ◌+◌, ◌≤◌, ◌<◌, length};
ghost use Rattle.network.specs.Changes.{raised};
ghost use Rattle.network_gaps.specs.Gaps.{with_places, MembersBelow};

// The places with gap new ones from place first on, a spare in each; the last ones fall off the end.
pub fn open_gap<T: Copy>(places: &mut [T], first: usize, gap: usize, spare: T)
    requires in_places { first + gap ≤ length places.old }
    requires copied { T.is_infallible spare × ((y : T) → T.is_clone spare y → y ≡ spare) }
    ensures { places.new ≡ with_places spare (length places.old) first gap places.old }
{
    let end = places.len() - gap;
    places.copy_within(first..end, first + gap);
    places[first..first + gap].fill(spare);
}

// A signal after a gate is put in at signal u: one from u on rises by one.
#[tactic(auto, using(network::specs::ChangeLaws::raised_low, network::specs::ChangeLaws::raised_high))]
fn raise(u: usize, signal: u8) -> u8
    requires { signal < 255 }
    ensures { result ≡ raised u signal }
{
    if usize::from(signal) < u {
        signal
    } else {
        signal + 1
    }
}

// Signals after a gate is put in at signal u. Each is written, so that many are at once.
pub fn raise_all(signals: &mut [u8], u: usize)
    requires { MembersBelow 255 signals.old }
    ensures { signals.new ≡ map (raised u) signals.old }
{
    for signal in signals {
        *signal = raise(u, *signal);
    }
}
