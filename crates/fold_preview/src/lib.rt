// What collapsing a gate would give, without doing it: document 02, No. 1.
#![tactic(auto)]

pub mod files;
pub mod unchecked;

ghost use Rattle.std.specs.Prelude.{◌≡◌};
ghost use Rattle.fold_preview.specs.Preview.{previewed};

use network::Network;
use network_report::SizeReport;
use network_soundness::is_sound;
use refusals::Refusal;
use unchecked::{preview_at, report};

// Gates, cost and levels of the network that a collapse of the gate with signal s would leave. The network comes by value, and none is handed
// back. Refusals are the collapse's: 20 broken record, 11 no such gate, 17 still read (an output), then the first reader's 7 or 16.
pub fn preview(network: Network, s: usize) -> SizeReport
    ensures { result ≡ previewed network s }
{
    if !is_sound(network) {
        return report(Err(Refusal::BrokenRecord));
    }
    preview_at(&network, s)
}
