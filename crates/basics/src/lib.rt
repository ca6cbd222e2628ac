// What every family stands on: integers by their bytes, lists, answers and refusals, sizes, and linear arithmetic: definitions and laws, in specs/. The
// only code is the size of a number.
#![tactic(auto)]

ghost use Rattle.std.specs.Prelude.{◌≡◌, nat_abs};

// The size of a weight or a threshold.
pub fn magnitude(w: i32) -> u32
    ensures { result ≡ nat_abs w }
{
    w.unsigned_abs()
}
