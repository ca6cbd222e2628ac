// The tests of a drop. The function asks for a sound record.
ghost use Rattle.std.specs.Prelude.{◌≡◌, true};
ghost use Rattle.basics.specs.Refusals.{code_of};
ghost use Rattle.refusals.specs.Numbers.{as_answer};
ghost use Rattle.network.specs.Record.{sound_record};
ghost use Rattle.fold_drop.specs.Dropping.{DropTried};

use fold_readers::unchecked::{count_readers, is_output};
use network::Network;
use network_limits::is_gate;
use refusals::Refusal;

// Whether the gate with signal s can be dropped. Refusals: 11 no such gate, 17 still read.
pub fn test_drop(network: &Network, s: usize) -> Result<(), Refusal>
    requires { sound_record network.now ≡ true }
    ensures { DropTried network.now s (code_of (as_answer result)) }
{
    if !is_gate(network.inputs, network.gates, s) {
        return Err(Refusal::NoSuchGate);
    }
    let readers = count_readers(network, s);
    if (readers != 0) | is_output(network, s) {
        return Err(Refusal::StillRead);
    }
    Ok(())
}
