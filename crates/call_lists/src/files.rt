// A list of calls on a whole file.
ghost use Rattle.std.specs.Prelude.{◌≡◌};
ghost use Rattle.basics.specs.Refusals.{code_of, stored};
ghost use Rattle.call_runs.specs.Files.{run_answer, ran_file, ran_numbers};

use crate::unchecked::{has_room, run_storing};
use call_numbers::is_well_formed;
use pmn_files::unchecked::put_file;
use pmn_opening::unchecked::refusal;

// The list is run on the network of a file: each call's code and three numbers go into the answers from place 1 on, the file of the network
// after the list into `out`, and its length into place 0 of the answers. Refusals: as read, 14 for a list that is not well formed, 18 for too
// few places or bytes.
pub fn run_on_file(file: &[u8], calls: &[u64], answers: &mut [u64], out: &mut [u8]) -> u8
    ensures value { result ≡ code_of (run_answer file.now calls.now answers.old out.old) }
    ensures answers_after { answers.new
        ≡ stored (ran_numbers (run_answer file.now calls.now answers.old out.old)) answers.old }
    ensures out_after { out.new
        ≡ stored (ran_file (run_answer file.now calls.now answers.old out.old)) out.old }
{
    let loaded = pmn_reader::read(file);
    let code = refusal(file, loaded, 0, 0);
    if code != 0 {
        return code;
    }
    if !is_well_formed(calls) {
        return 14;
    }
    if answers.len() < 4 * (calls.len() / 5) + 1 {
        return 18;
    }
    if !has_room(loaded.network, calls, out.len()) {
        return 18;
    }
    let after = run_storing(loaded.network, calls, answers);
    put_file(after, out, answers)
}
