// One call of a list on records.
#![tactic(auto)]

pub mod unchecked;

ghost use Rattle.std.specs.Prelude.{◌≡◌};
ghost use Rattle.journal.specs.Answers.{applied};

use call_theory::Call;
use journal::{CallAnswer, Record, is_sound, refusal};
use unchecked::apply_in;

// One call of a list: 0 or the refusal, the record that it leaves, and its three numbers.
pub fn apply(held: Record, call: Call) -> CallAnswer
    ensures { result ≡ applied held call }
{
    if !is_sound(held) {
        return refusal(20, held);
    }
    let mut after = held;
    match apply_in(&mut after, call) {
        Ok(figures) => CallAnswer {
            code: 0,
            after,
            figures,
        },
        Err(why) => refusal(why.number(), after),
    }
}
