// One line of the question for two whole files, for C and Rust, with a place for its length.
#![tactic(auto)]

ghost use Rattle.std.specs.Prelude.{◌≡◌};
ghost use Rattle.basics.specs.Refusals.{code_of, stored};
ghost use Rattle.pmn_opening.specs.Files.{length_of};
ghost use Rattle.question_files.specs.Files.{line_out};

use pmn_opening::unchecked::places::put_one;
use pmn_opening::unchecked::refusal;

// Line n of the question for two files is put into `out`, and its length goes into place 0 of the answer. Refusals: as the first file is read,
// as the second is read, 18 where there is no place, 19 for unlike networks, 21 where there is no such line, 18 where the line is longer
// than `out`.
pub fn line_of_files(first: &[u8], second: &[u8], n: u64, out: &mut [u8], answer: &mut [u64]) -> u8
    ensures value { result ≡ code_of (line_out first.now second.now n out.old answer.old) }
    ensures out_after { out.new
        ≡ stored (line_out first.now second.now n out.old answer.old) out.old }
    ensures answer_after { answer.new
        ≡ stored (length_of (line_out first.now second.now n out.old answer.old)) answer.old }
{
    let one = pmn_reader::read(first);
    let code = refusal(first, one, 0, 0);
    if code != 0 {
        return code;
    }
    let other = pmn_reader::read(second);
    let number = refusal(second, other, answer.len(), 1);
    if number != 0 {
        return number;
    }
    let written = question_text::line(one.network, other.network, n as usize, out);
    put_one(answer, written.code, written.length as u64)
}
