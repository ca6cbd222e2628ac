// Numbers put at the front of lent places, for which the caller has tested the room. The places after them stay as they were.
ghost use Rattle.std.specs.Prelude.{◌≡◌, [], ◌∷◌, ◌≤◌, length};
ghost use Rattle.basics.specs.Refusals.{stored};
ghost use Rattle.pmn_opening.specs.Places.{answer_of};

// Numbers that came with code 0; nothing with any other code. The answer is the code.
fn put_numbers(answer: &mut [u64], code: u8, numbers: &[u64]) -> u8
    requires { length numbers.now ≤ length answer.old }
    ensures value { result ≡ code }
    ensures answer_after { answer.new ≡ stored (answer_of code numbers.now) answer.old }
{
    if code == 0 {
        answer[..numbers.len()].copy_from_slice(numbers);
    }
    code
}

// A number that came with code 0, in this way.
pub fn put_one(answer: &mut [u64], code: u8, first: u64) -> u8
    requires { 1 ≤ length answer.old }
    ensures value { result ≡ code }
    ensures answer_after { answer.new ≡ stored (answer_of code (first ∷ [])) answer.old }
{
    put_numbers(answer, code, &[first])
}

// Two numbers that came with code 0.
pub fn put_two(answer: &mut [u64], code: u8, first: u64, second: u64) -> u8
    requires { 2 ≤ length answer.old }
    ensures value { result ≡ code }
    ensures answer_after { answer.new ≡ stored (answer_of code (first ∷ second ∷ [])) answer.old }
{
    put_numbers(answer, code, &[first, second])
}

// Three numbers that came with code 0.
pub fn put_three(answer: &mut [u64], code: u8, first: u64, second: u64, third: u64) -> u8
    requires { 3 ≤ length answer.old }
    ensures value { result ≡ code }
    ensures answer_after { answer.new ≡ stored (answer_of code (first ∷ second ∷ third ∷ [])) answer.old }
{
    put_numbers(answer, code, &[first, second, third])
}
