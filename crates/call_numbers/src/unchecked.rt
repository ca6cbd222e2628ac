// One call of a list of numbers, and the four numbers of its answer, by calls that ask for their places in the list.
ghost use Rattle.std.specs.Prelude.{◌≡◌, ◌+◌, ◌*◌, ◌≤◌, length};
ghost use Rattle.std.proofs.lemmas.List.Edits.{sets};
ghost use Rattle.call_numbers.specs.Numbers.{four_of};
ghost use Rattle.call_numbers.specs.CallPlaces.{call_at};

use call_theory::{Call, Figures};

// Call i of the list.
pub fn call_at(numbers: &[u64], i: usize) -> Call
    requires { 5 * i + 5 ≤ length numbers.now }
    ensures { result ≡ call_at numbers.now i }
{
    let at = 5 * i;
    let kind = numbers[at];
    let a = numbers[at + 1];
    let b = numbers[at + 2];
    let c = numbers[at + 3];
    let d = numbers[at + 4];
    match kind {
        0 => Call::Merge {
            u: a as usize,
            v: b as usize,
            k: c as usize,
            l: d as usize,
        },
        1 => Call::Drop { s: a as usize },
        2 => Call::Collapse { s: a as usize },
        3 => Call::Sweep { b: a as usize },
        4 => Call::Preview { s: a as usize },
        _ => Call::Undo,
    }
}

// A call's code and its three numbers, put into four places from one on.
pub fn put_four(answers: &mut [u64], at: usize, code: u8, figures: Figures)
    requires { at + 4 ≤ length answers.old }
    ensures { answers.new ≡ sets answers.old at (four_of code figures) }
{
    answers[at] = code as u64;
    answers[at + 1] = figures.first;
    answers[at + 2] = figures.second;
    answers[at + 3] = figures.third;
}
