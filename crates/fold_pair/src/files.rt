// The pair on a whole file. The record that was read is sound, and not tested again.
ghost use Rattle.std.specs.Prelude.{◌≡◌};
ghost use Rattle.basics.specs.Refusals.{code_of, stored};
ghost use Rattle.fold_pair.specs.Files.{pair_places};

use crate::unchecked::pair_sound;
use pmn_opening::unchecked::places::put_two;
use pmn_opening::unchecked::refusal;

// The pair for two gates of a file: k goes into place 0 of the answer, l into place 1. Refusals: as read, 18 for fewer than two places, then
// the pair's.
pub fn pair_of_file(file: &[u8], u: u64, v: u64, answer: &mut [u64]) -> u8
    ensures value { result ≡ code_of (pair_places file.now u v answer.old) }
    ensures answer_after { answer.new ≡ stored (pair_places file.now u v answer.old) answer.old }
{
    let loaded = pmn_reader::read(file);
    let code = refusal(file, loaded, answer.len(), 2);
    if code != 0 {
        return code;
    }
    let found = pair_sound(&loaded.network, u as usize, v as usize);
    put_two(answer, found.code, found.k as u64, found.l as u64)
}
