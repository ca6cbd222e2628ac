// A preview as a call of a list, on a sound network.
ghost use Rattle.std.specs.Prelude.{◌≡◌, true};
ghost use Rattle.network.specs.Record.{sound_record};
ghost use Rattle.fold_preview.specs.Preview.{previewed};
ghost use Rattle.call_preview.specs.Answers.{size_figures, size_given};

use call_theory::Figures;
use fold_preview::unchecked::size_after;
use network::Network;
use network_report::SizeReport;
use refusals::Refusal;

// A report's three numbers, as those of a call.
fn shown(size: SizeReport) -> Figures
    ensures { result ≡ size_figures size }
{
    Figures {
        first: size.gates as u64,
        second: size.cost,
        third: size.levels as u64,
    }
}

// Gates, cost and levels of the network that a collapse of the gate with signal s would leave, as the three numbers of a call. Refusals: those of the
// collapse.
pub fn preview_in(network: &Network, s: usize) -> Result<Figures, Refusal>
    requires { sound_record network.now ≡ true }
    ensures { size_given result ≡ previewed network.now s }
{
    Ok(shown(size_after(network, s)?))
}
