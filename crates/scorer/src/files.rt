// The scorer on a whole file.
ghost use Rattle.std.specs.Prelude.{◌≡◌, length};
ghost use Rattle.basics.specs.Refusals.{code_of, stored};
ghost use Rattle.scorer.specs.Answers.{score_places};

use scorer_places::unchecked::put_sheet;
use scorer_play::score_network;

// The sheet of a game goes into the first 33 places of the answer: the number of balls, the number of scores known, 21 places for the pins
// felled by each ball, ten for the running scores; spare ones get 0. Refusals: as read, 18 for fewer than 33 places, 27, then ball by ball.
pub fn score_file(file: &[u8], frames: &[u64], answer: &mut [u64]) -> u8
    ensures value { result ≡ code_of (score_places file.now frames.now (length answer.old)) }
    ensures answer_after { answer.new
        ≡ stored (score_places file.now frames.now (length answer.old)) answer.old }
{
    let loaded = pmn_reader::read(file);
    let code = loaded.code;
    if code != 0 {
        return code;
    }
    if answer.len() < 33 {
        return 18;
    }
    let sheet = score_network(loaded.network, frames);
    put_sheet(answer, sheet)
}
