// The cut of one output: a network of that output alone. Document 02, No. 12.
#![tactic(auto)]

pub mod unchecked;

ghost use Rattle.std.specs.Prelude.{◌≡◌};
ghost use Rattle.cut_output.specs.Answers.{cut_record};

use journal::Record;
use unchecked::cut_sound;

// What `cut` answers: 0 or the refusal, and the record of the cut, whose journal is empty; the record that came in on refusal.
#[derive(Clone, Copy)]
pub struct CutAnswer {
    pub code: u8,
    pub after: Record,
}

// The record of one output alone: all inputs, the margins and the version stay, and the gates that the output names or that a gate of the cut
// reads keep their order with new signals. Refusals: 20, 8 for an output number that the network lacks.
pub fn cut(held: Record, output: usize) -> CutAnswer
    ensures { result ≡ cut_record held output }
{
    if !journal::is_sound(held) {
        return CutAnswer {
            code: 20,
            after: held,
        };
    }
    if held.network.outputs <= output {
        return CutAnswer {
            code: 8,
            after: held,
        };
    }
    let network = cut_sound(&held.network, output);
    let after = journal::just_read(network);
    CutAnswer { code: 0, after }
}
