// The cut of a whole file, for C and Rust, with a place for the length of the new one. Document 02, No. 12.
#![tactic(auto)]

ghost use Rattle.std.specs.Prelude.{◌≡◌, length};
ghost use Rattle.basics.specs.Refusals.{code_of, stored};
ghost use Rattle.pmn_opening.specs.Files.{length_of};
ghost use Rattle.cut_files.specs.Answers.{cut_places};

use cut_output::unchecked::cut_sound;
use pmn_files::unchecked::put_file;
use pmn_opening::unchecked::refusal;

// The file of the cut of an output is put into `out`, and its length goes into place 0 of the answer. Refusals: as read, 18 where there is no
// place, 8 for an output number that the network lacks, 18 where the new file is longer than `out`.
pub fn cut_file(file: &[u8], output: u64, out: &mut [u8], answer: &mut [u64]) -> u8
    ensures value { result ≡ code_of (cut_places file.now output (length out.old) (length answer.old)) }
    ensures out_after { out.new
        ≡ stored (cut_places file.now output (length out.old) (length answer.old)) out.old }
    ensures answer_after { answer.new
        ≡ stored (length_of (cut_places file.now output (length out.old) (length answer.old))) answer.old }
{
    let read = pmn_reader::read(file);
    let code = refusal(file, read, answer.len(), 1);
    if code != 0 {
        return code;
    }
    let outputs = read.network.outputs;
    if outputs as u64 <= output {
        return 8;
    }
    let pin = cut_sound(&read.network, output as usize);
    put_file(pin, out, answer)
}
