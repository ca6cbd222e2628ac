// A step at a gate, with the gate that stands there, entered into a journal.
ghost use Rattle.std.specs.Prelude.{◌≡◌, ◌<◌};
ghost use Rattle.network_places.specs.Parts.{row_in};
ghost use Rattle.journal.specs.Journals.{with_step};

use journal::Journal;
use journal_entry::unchecked::enter_step;
use network::Network;
use network_places::unchecked::gate_at;

// A step of that kind, 0 a merge and else a drop, at gate g, which has that signal.
pub fn enter_gate(network: &Network, journal: &mut Journal, kind: u8, signal: u8, g: usize)
    requires { g < 128 }
    ensures { journal.new ≡ with_step journal.old kind signal (row_in network.now g) }
{
    enter_step(journal, kind, signal, gate_at(network, g));
}
