// The frames that a game reads, and the balls in their order, played on the output words of these frames.
ghost use Rattle.std.specs.Prelude.{◌≡◌, ◌≤◌, length, take, MatchResult};
ghost use Rattle.basics.specs.Refusals.{accepted, refused};
ghost use Rattle.refusals.specs.Numbers.{number_of};
ghost use Rattle.scorer_tally.specs.Sheets.{as_sheet};
ghost use Rattle.scorer_play.specs.Play.{ShortFrames, word_game};

use refusals::Refusal;
use scorer_ball::Lane;
use scorer_tally::Sheet;
use scorer_tally::unchecked::{refused, sheet_of};

// How many frames are read: those before the first long one, and at most 22, since a game has at most 21 balls.
pub fn short_frames(inputs: usize, frames: &[u64]) -> usize
    requires { inputs ≤ 40 }
    ensures { ShortFrames inputs frames.now result }
{
    let few = &frames[..frames.len().min(22)];
    // Kept: a loop, no `position`. Tried, its `ran` left the whole of `ShortFrames` open.
    for (count, frame) in few.iter().enumerate() {
        if (*frame >> inputs) != 0 {
            return count;
        }
    }
    few.len()
}

// The pins felled by each ball of a game of so many frames, from the output words of those that are read. Refusals, ball by ball: 10 where
// the words end before the frames, 28 a ball after the game's end, 29 a pin that stands again.
fn play_balls(words: &[u64], frames: usize, felled: &mut [u8; 21]) -> Result<(), Refusal>
    ensures { MatchResult result (λ _. (length words.now ≤ 21) × (word_game words.now frames ≡ accepted (take (length words.now) felled.new))) (λ e. word_game words.now frames ≡ refused (number_of e)) }
{
    let mut lane = Lane::start();
    for (balls, word) in words.iter().enumerate() {
        felled[balls] = lane.throw(*word % 1024)?;
    }
    if words.len() < frames {
        return Err(Refusal::LongFrame);
    }
    Ok(())
}

// The sheet of a game of so many frames, from the output words of those that are read, or the number of its refusal.
pub fn play(words: &[u64], frames: usize) -> Sheet
    ensures { result ≡ as_sheet (word_game words.now frames) }
{
    let mut felled = [0u8; 21];
    match play_balls(words, frames, &mut felled) {
        Ok(()) => sheet_of(&felled[..words.len()]),
        Err(refusal) => refused(refusal.number()),
    }
}
