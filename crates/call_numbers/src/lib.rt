// A list of calls given as numbers, five to a call, and the four numbers that each call's answer is. Its other calls ask for what `unchecked` says.
#![tactic(auto)]

pub mod unchecked;

ghost use Rattle.std.specs.Prelude.{◌≡◌};
ghost use Rattle.call_numbers.specs.Numbers.{well_formed};

// Whether every call has five numbers and a kind from 0 to 5.
pub fn is_well_formed(numbers: &[u64]) -> bool
    ensures { result ≡ well_formed numbers.now }
{
    let mut at: usize = 0;
    // Kept: a turn takes five places, as the definition does, and tests that they are there.
    while at < numbers.len() {
        if numbers.len() - at < 5 {
            return false;
        }
        if numbers[at] > 5 {
            return false;
        }
        at += 5;
    }
    true
}
