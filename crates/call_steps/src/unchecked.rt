// The steps of a call entered into a journal. Each function asks for a sound network.
ghost use Rattle.std.specs.Prelude.{◌≡◌, true};
ghost use Rattle.network.specs.Record.{net_of, sound_record};
ghost use Rattle.network.specs.Places.{SoundGate};
ghost use Rattle.call_theory.specs.Steps.{reader_steps, collapse_steps};
ghost use Rattle.journal.specs.Journals.{enter_all};

use fold_readers::unchecked::reads_gate;
use journal::{Journal, StepKind};
use journal_gate::unchecked::enter_gate;
use network::Network;

// The merges of u into its readers, in rising order, entered.
fn enter_readers(network: &Network, journal: &mut Journal, u: usize)
    requires { sound_record network.now ≡ true }
    ensures { journal.new ≡ enter_all journal.old (reader_steps u network.now.inputs (net_of network.now).gates) }
{
    for g in 0..network.gates {
        if reads_gate(network, g, u) {
            let signal = network.inputs + g;
            enter_gate(network, journal, StepKind::Merge as u8, signal as u8, g);
        }
    }
}

// The steps of a collapse of u entered: the merges into its readers, in rising order, then the drop.
pub fn enter_collapse(network: &Network, journal: &mut Journal, u: usize)
    requires { SoundGate network.now u }
    ensures { journal.new ≡ enter_all journal.old (collapse_steps (net_of network.now) u) }
{
    enter_readers(network, journal, u);
    let g = u - network.inputs;
    enter_gate(network, journal, StepKind::Drop as u8, u as u8, g);
}
