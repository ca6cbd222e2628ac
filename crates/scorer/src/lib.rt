// The scorer: pins felled and running scores of one bowler's game, from the frames after each ball.
#![tactic(auto)]

pub mod files;

ghost use Rattle.std.specs.Prelude.{◌≡◌};
ghost use Rattle.scorer.specs.Answers.{scoring};

use journal::Record;
use scorer_play::score_network;
use scorer_tally::Sheet;
use scorer_tally::unchecked::refused;

// The sheet of a game, from the frames after each ball. Refusals: 20 broken record, 27 fewer than ten outputs; then ball by ball 10 long
// frame, 28 a ball after the game's end, 29 a pin that stands after a ball without having stood before it in the same rack.
pub fn score(held: Record, frames: &[u64]) -> Sheet
    ensures { result ≡ scoring held frames.now }
{
    if 64 < held.journal.count {
        return refused(20);
    }
    score_network(held.network, frames)
}
