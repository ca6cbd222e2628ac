// The size report of a network: gates, cost and levels.
#![tactic(auto)]

ghost use Rattle.std.specs.Prelude.{◌≡◌};
ghost use Rattle.network_report.specs.Size.{reported};

use network::Network;

// What `report` answers: 0 or the refusal, the number of gates, the cost and the levels.
#[derive(Clone, Copy)]
pub struct SizeReport {
    pub code: u8,
    pub gates: usize,
    pub cost: u64,
    pub levels: usize,
}

// The size of a network. Refusal: 20 broken record.
pub fn report(network: Network) -> SizeReport
    ensures { result ≡ reported network }
{
    if !network_soundness::is_sound(network) {
        return SizeReport {
            code: 20,
            gates: 0,
            cost: 0,
            levels: 0,
        };
    }
    unchecked::size_of(&network)
}

pub mod unchecked;
