// The newest step of a journal: its gate, and the journal without it.
ghost use Rattle.std.specs.Prelude.{◌≡◌, ◌++◌, ◌≤◌, length, get_or, drop, replicate};
ghost use Rattle.network.specs.Record.{gate_in, gate_record};
ghost use Rattle.journal.specs.Journals.{row_of, without_newest};

use journal::Journal;
use network::GateRecord;

// Some values put after the others, of which the first ones go.
fn put_after<T: Copy>(places: &mut [T], last: &[T])
    requires { length last.now ≤ length places.old }
    ensures { places.new ≡ drop (length last.now) places.old ++ last.now }
{
    let kept = places.len() - last.len();
    places.copy_within(last.len().., 0);
    places[kept..].copy_from_slice(last);
}

// The newest step taken out of a journal.
pub fn remove_newest(journal: &mut Journal)
    ensures { journal.new ≡ without_newest journal.old }
{
    journal.count = journal.count.saturating_sub(1);
    put_after(&mut journal.kinds, &[0]);
    put_after(&mut journal.signals, &[0]);
    put_after(&mut journal.fanins, &[0]);
    put_after(&mut journal.thresholds, &[0]);
    put_after(&mut journal.feeds, &[0; 16]);
    put_after(&mut journal.weights, &[0; 16]);
}

// The gate of the newest step, with 0 in its spare places. It has a frame of its own.
#[inline(never)]
pub fn newest_gate(journal: &Journal) -> GateRecord
    requires { get_or journal.now.fanins 0 0 ≤ 16 }
    ensures { result ≡ gate_record (gate_in (row_of journal.now 0)) }
{
    let fanin = journal.fanins[0];
    let count = usize::from(fanin);
    let mut signals = [0; 16];
    signals[..count].copy_from_slice(&journal.feeds[..count]);
    let mut weights = [0; 16];
    weights[..count].copy_from_slice(&journal.weights[..count]);
    GateRecord {
        fanin,
        threshold: journal.thresholds[0],
        signals,
        weights,
    }
}
