// The new signals of those that stay, and a row of signals with them.
ghost use Rattle.std.specs.Prelude.{◌≡◌, map, ◌+◌, ◌≤◌, ◌<◌, get_or};
ghost use Rattle.cut_marks.specs.Marks.{marks_of};
ghost use Rattle.cut_signals.specs.Signals.{signal_stays, NewSignals};

use cut_marks::Marks;

// Whether the signal s stays: an input's, or that of a marked gate.
#[tactic(auto, unfolding(crate::specs::Signals::signal_stays))]
pub fn is_kept(marks: Marks, inputs: usize, s: usize) -> bool
    requires { s < inputs + 128 }
    ensures { result ≡ signal_stays (marks_of marks) inputs s }
{
    s < inputs || marks.has(s - inputs)
}

// The new signal of each signal, when the gates that are not marked are left out.
pub fn new_signals(marks: Marks, inputs: usize, gates: usize) -> [u8; 256]
    requires { (inputs ≤ 40) × (gates ≤ 128) }
    ensures { NewSignals (marks_of marks) inputs gates result }
{
    let mut result = [0; 256];
    let mut next = 0;
    for s in 0..inputs + gates {
        result[s] = next;
        next += u8::from(is_kept(marks, inputs, s));
    }
    result
}

// A row of 16 signals, each with its new one.
pub fn renamed_row(numbers: &[u8; 256], mut row: [u8; 16]) -> [u8; 16]
    ensures { result ≡ map (λ s. get_or numbers.now s 0) row }
{
    for signal in row.iter_mut() {
        *signal = numbers[usize::from(*signal)];
    }
    row
}
