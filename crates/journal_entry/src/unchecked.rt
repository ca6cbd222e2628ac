// A step entered into a journal.
ghost use Rattle.std.specs.Prelude.{◌≡◌, cond, ◌++◌, ◌+◌, ◌≤◌, ltb, length, take};
ghost use Rattle.journal.specs.Journals.{with_step};

use journal::Journal;
use network::GateRecord;

// Some values put before the others, of which the last ones go.
fn put_before<T: Copy>(places: &mut [T], front: &[T])
    requires { length front.now ≤ length places.old }
    ensures { places.new ≡ take (length places.old) (front.now ++ places.old) }
{
    let kept = places.len() - front.len();
    places.copy_within(..kept, front.len());
    places[..front.len()].copy_from_slice(front);
}

// One step more, 64 at most.
pub fn one_more(count: usize) -> usize
    ensures { result ≡ cond (ltb count 64) (count + 1) 64 }
{
    if count < 64 { count + 1 } else { 64 }
}

// A step put before the others of a journal; the last place's step goes.
pub fn enter_step(journal: &mut Journal, kind: u8, signal: u8, gate: GateRecord)
    ensures { journal.new ≡ with_step journal.old kind signal gate }
{
    journal.count = one_more(journal.count);
    put_before(&mut journal.kinds, &[kind]);
    put_before(&mut journal.signals, &[signal]);
    put_before(&mut journal.fanins, &[gate.fanin]);
    put_before(&mut journal.thresholds, &[gate.threshold]);
    put_before(&mut journal.feeds, &gate.signals);
    put_before(&mut journal.weights, &gate.weights);
}
