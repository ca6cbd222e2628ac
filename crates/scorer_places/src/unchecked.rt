// A sheet put at the front of lent places, for which the caller has tested the room. The places after it stay as they were.
ghost use Rattle.std.specs.Prelude.{◌≡◌, [], ◌∷◌, ◌++◌, ◌≤◌, length, drop};
ghost use Rattle.basics.specs.Refusals.{stored};
ghost use Rattle.pmn_opening.specs.Places.{answer_of};
ghost use Rattle.scorer_places.specs.Numbers.{sheet_numbers};

use scorer_tally::Sheet;

// The number of balls, and that of the scores known.
fn put_counts(answer: &mut [u64], balls: u64, scored: u64)
    requires { 2 ≤ length answer.old }
    ensures { answer.new ≡ (balls ∷ scored ∷ []) ++ drop 2 answer.old }
{
    answer[0] = balls;
    answer[1] = scored;
}

// The pins felled by each ball.
fn put_felled(answer: &mut [u64], felled: &[u8])
    requires { length felled.now ≤ length answer.old }
    ensures { answer.new ≡ felled.now ++ drop (length felled.now) answer.old }
{
    // Kept: an index, no `zip`. Tried, the invariant of a loop over `iter_mut().zip(..)` cannot name the places written so far.
    for (i, pins) in felled.iter().enumerate() {
        answer[i] = u64::from(*pins);
    }
}

// The running scores.
fn put_scores(answer: &mut [u64], scores: &[u16])
    requires { length scores.now ≤ length answer.old }
    ensures { answer.new ≡ scores.now ++ drop (length scores.now) answer.old }
{
    for (i, score) in scores.iter().enumerate() {
        answer[i] = u64::from(*score);
    }
}

// The numbers of a sheet with code 0; nothing of a refusal. The answer is the code.
pub fn put_sheet(answer: &mut [u64], sheet: Sheet) -> u8
    requires { 33 ≤ length answer.old }
    ensures value { result ≡ sheet.code }
    ensures answer_after { answer.new ≡ stored (answer_of sheet.code (sheet_numbers sheet)) answer.old }
{
    if sheet.code != 0 {
        return sheet.code;
    }
    put_counts(answer, sheet.balls as u64, sheet.scored as u64);
    put_felled(&mut answer[2..], &sheet.felled);
    put_scores(&mut answer[23..], &sheet.scores);
    0
}
