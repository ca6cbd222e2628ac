// The witness on a whole file, for C and Rust: it takes a PMN file, numbers and places for the answer, and answers 0 or a number.
ghost use Rattle.std.specs.Prelude.{length};
ghost use Rattle.pmn_opening.specs.Files.{open_net};
ghost use Rattle.fold_witness.specs.Files.{WitnessLeft};

use crate::witness;

// The merge's own number; only where it is 15, the setting with the fewest ones that shows it goes into place 0 of the answer.
pub fn witness_of_file(file: &[u8], u: u64, v: u64, k: u64, l: u64, answer: &mut [u64]) -> u8
    ensures { WitnessLeft (open_net file.now (length answer.old) 1) u v k l answer.old answer.new result }
{
    let loaded = pmn_reader::read(file);
    let code = pmn_opening::unchecked::refusal(file, loaded, answer.len(), 1);
    if code != 0 {
        return code;
    }
    let shown = witness(
        loaded.network,
        u as usize,
        v as usize,
        k as usize,
        l as usize,
    );
    let number = shown.code;
    if number != 15 {
        return number;
    }
    answer[0] = shown.setting as u64;
    number
}
