// The network before the newest step of a journal: the gate of the step put back or put in, and the result if it is sound.
ghost use Rattle.std.specs.Prelude.{◌≡◌, true, false, cond};
ghost use Rattle.network.specs.Record.{net_of, gate_in, sound_record};
ghost use Rattle.call_theory.specs.Steps.{merging, dropping, undoable};
ghost use Rattle.journal.specs.Journals.{step_at};
ghost use Rattle.call_restoring.specs.TakenBack.{GateRecordOk, back_to};

use journal::Journal;
use journal_newest::unchecked::newest_gate;
use network::{GateRecord, Network};
use network_insertion::unchecked::insert_gate;
use network_limits::is_gate;
use network_places::unchecked::replace_gate;
use network_soundness::is_sound;

// The network before the step takes the place of the one after it, if it is sound; the answer is whether it is.
fn if_sound(network: &mut Network, res: Network) -> bool
    ensures value { result ≡ sound_record res }
    ensures network_after { network.new ≡ cond (sound_record res) res network.old }
{
    if !is_sound(res) {
        return false;
    }
    *network = res;
    true
}

// The network before a merge into v, where it can be had: the gate that stood there is put back. The answer is whether it can.
fn put_back(network: &mut Network, v: usize, gate: GateRecord) -> bool
    requires { (sound_record network.old ≡ true) × GateRecordOk gate }
    ensures value { result ≡ undoable (net_of network.old) (merging v (gate_in gate)) }
    ensures network_after { network.new ≡ back_to network.old (merging v (gate_in gate)) }
{
    if !is_gate(network.inputs, network.gates, v) {
        return false;
    }
    let result = replace_gate(*network, v, gate);
    if_sound(network, result)
}

// The network before a drop of u, where it can be had: the gate that was removed is put in. The answer is whether it can.
fn put_in(network: &mut Network, u: usize, gate: GateRecord) -> bool
    requires { (sound_record network.old ≡ true) × GateRecordOk gate }
    ensures value { result ≡ undoable (net_of network.old) (dropping u (gate_in gate)) }
    ensures network_after { network.new ≡ back_to network.old (dropping u (gate_in gate)) }
{
    if u < network.inputs || network.inputs + network.gates < u || network.gates == 128 {
        return false;
    }
    let result = insert_gate(*network, u, gate);
    if_sound(network, result)
}

// The newest step of a journal that has one taken back, where it can be; the answer is whether it can.
pub fn take_back(network: &mut Network, journal: &Journal) -> bool
    requires { sound_record network.old ≡ true }
    ensures value { result ≡ undoable (net_of network.old) (step_at journal.now 0) }
    ensures network_after { network.new ≡ back_to network.old (step_at journal.now 0) }
{
    if 16 < journal.fanins[0] {
        return false;
    }
    let gate = newest_gate(journal);
    let signal = usize::from(journal.signals[0]);
    if journal.kinds[0] == 0 {
        put_back(network, signal, gate)
    } else {
        put_in(network, signal, gate)
    }
}
