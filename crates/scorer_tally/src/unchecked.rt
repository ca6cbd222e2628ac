// Running scores from the pins felled by each ball, and the sheet of a game.
ghost use Rattle.std.specs.Prelude.{◌≡◌, ◌≤◌, ◌<◌, length, get_or};
ghost use Rattle.basics.specs.Refusals.{Answer, accepted};
ghost use Rattle.scorer_tally.specs.Sheets.{as_sheet};
ghost use Rattle.scorer_theory.specs.Scores.{running_scores};
ghost use Rattle.scorer_tally.specs.Tally.{as_scored, FrameCounted};

use crate::{FrameCount, Scored, Sheet};

// The pins felled by ball i, 0 where there is no such ball.
fn felled_at(balls: &[u8], i: usize) -> usize
    ensures { (result ≡ get_or balls.now i 0) × (result < 256) }
{
    usize::from(balls.get(i).copied().unwrap_or(0))
}

// The frame that starts the balls.
fn frame_of(balls: &[u8]) -> FrameCount
    ensures { FrameCounted balls.now result }
{
    let first = felled_at(balls, 0);
    let second = felled_at(balls, 1);
    let third = felled_at(balls, 2);
    if first == 10 {
        return FrameCount {
            own: 1,
            counted: 3,
            score: first + second + third,
        };
    }
    if first + second == 10 {
        return FrameCount {
            own: 2,
            counted: 3,
            score: first + second + third,
        };
    }
    FrameCount {
        own: 2,
        counted: 2,
        score: first + second,
    }
}

// The running score of each frame whose score is known.
fn running_scores(balls: &[u8]) -> Scored
    ensures { result ≡ as_scored (running_scores balls.now) }
{
    let mut scores = [0u16; 10];
    let mut left = balls;
    let mut so_far: usize = 0;
    for (frames, score) in scores.iter_mut().enumerate() {
        let frame = frame_of(left);
        if left.len() < frame.counted {
            return Scored { frames, scores };
        }
        so_far += frame.score;
        *score = so_far as u16;
        left = &left[frame.own..];
    }
    Scored { frames: 10, scores }
}

// A refusal: 0 everywhere.
pub fn refused(code: u8) -> Sheet
    ensures { result ≡ as_sheet (Answer.refused code) }
{
    Sheet {
        code,
        balls: 0,
        felled: [0; 21],
        scored: 0,
        scores: [0; 10],
    }
}

// The sheet of the pins felled by each ball; spare places hold 0.
pub fn sheet_of(balls: &[u8]) -> Sheet
    requires { length balls.now ≤ 21 }
    ensures { result ≡ as_sheet (accepted balls.now) }
{
    let mut felled = [0u8; 21];
    felled[..balls.len()].copy_from_slice(balls);
    let Scored { frames, scores } = running_scores(balls);
    Sheet {
        code: 0,
        balls: balls.len(),
        felled,
        scored: frames,
        scores,
    }
}
