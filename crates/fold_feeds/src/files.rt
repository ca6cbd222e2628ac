// The distinct feeds on a whole file, for C and Rust: it takes a PMN file, numbers and places for the answer, and answers 0 or a number.
ghost use Rattle.std.specs.Prelude.{◌≡◌};
ghost use Rattle.basics.specs.Refusals.{code_of, stored};
ghost use Rattle.fold_feeds.specs.Files.{distinct_places};

use crate::distinct_feeds;
use crate::unchecked::put_feeds;

// The distinct feeds of two gates: their number goes into place 0 of the answer, their signals into the places after it, rising.
pub fn distinct_of_file(file: &[u8], u: u64, v: u64, answer: &mut [u64]) -> u8
    ensures value { result ≡ code_of (distinct_places file.now u v answer.old) }
    ensures answer_after { answer.new ≡ stored (distinct_places file.now u v answer.old) answer.old }
{
    let loaded = pmn_reader::read(file);
    let code = pmn_opening::unchecked::refusal(file, loaded, answer.len(), 17);
    if code != 0 {
        return code;
    }
    let listed = distinct_feeds(loaded.network, u as usize, v as usize);
    put_feeds(answer, listed)
}
