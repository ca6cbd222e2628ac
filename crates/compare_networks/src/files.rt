// Two whole files compared, for C and Rust: files, a budget and places for the answer.
ghost use Rattle.std.specs.Prelude.{◌≡◌, length};
ghost use Rattle.compare_networks.specs.Files.{compared_files, CompareLeft};

use crate::unchecked::compare_sound;
use pmn_opening::unchecked::places::put_three;
use pmn_opening::unchecked::refusal;

// Two files compared with at most so many steps: the verdict goes into place 0 of the answer, a frame on which they are apart into place 1, and the
// steps used into place 2. Refusals: as the first file is read, as the second is read, 18 where there are fewer than 3 places, 19 for unlike networks.
pub fn compare_of_files(first: &[u8], second: &[u8], budget: u64, answer: &mut [u64]) -> u8
    ensures { CompareLeft (compared_files first.now second.now (length answer.old)) budget
        answer.old answer.new result }
{
    let one = pmn_reader::read(first);
    let code = refusal(first, one, 0, 0);
    if code != 0 {
        return code;
    }
    let other = pmn_reader::read(second);
    let second_code = refusal(second, other, answer.len(), 3);
    if second_code != 0 {
        return second_code;
    }
    let compared = compare_sound(&one.network, &other.network, budget);
    put_three(
        answer,
        compared.code,
        u64::from(compared.verdict),
        compared.frame,
        compared.steps,
    )
}
