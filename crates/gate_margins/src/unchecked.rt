// The margin test, by meeting in the middle: the sums of the first half of the weights and those of the second half, each as a rising
// list, and a walk along both that finds a sum between floor and ceiling if there is one. Each call asks for at most 16 weights and
// for numbers on the scale.
ghost use Rattle.std.specs.Prelude.{◌≡◌};
ghost use Rattle.gate_rising.specs.Sums.{every_sum};
ghost use Rattle.gate_margins.specs.Sums.{apart, outside};
ghost use Rattle.gate_margins.specs.Tables.{OnScale, AddableList, lists_apart};

use gate_rising::unchecked::table;
use gate_sums::unchecked::settings;

// Whether a sum does not lie above floor and below ceiling.
fn clear(floor: i32, ceiling: i32, sum: i32) -> bool
    ensures { result ≡ apart floor ceiling sum }
{
    (ceiling <= sum) | (sum <= floor)
}

// Whether no sum of a member of each list lies between floor and ceiling: a walk from two corners at once. Members i to p − 1 of the one
// list and q to j − 1 of the other are left. The sum of the lowest and the highest of them rules out the highest if it is too high, else
// the lowest; the sum of the highest and the lowest likewise.
fn lists_apart(lows: &[i32], highs: &[i32], floor: i32, ceiling: i32) -> bool
    requires lows_addable { AddableList lows.now }
    requires highs_addable { AddableList highs.now }
    ensures { result ≡ lists_apart lows.now highs.now floor ceiling }
{
    let mut i: usize = 0;
    let mut j = highs.len();
    let mut p = lows.len();
    let mut q: usize = 0;
    // Kept: the sums say which end moves; no iterator does that.
    while i < p && q < j {
        let upper = lows[i] + highs[j - 1];
        let lower = lows[p - 1] + highs[q];
        if !(clear(floor, ceiling, upper) & clear(floor, ceiling, lower)) {
            return false;
        }
        let high = usize::from(ceiling <= upper);
        i += 1 - high;
        j -= high;
        let over = usize::from(ceiling <= lower);
        p -= over;
        q += 1 - over;
    }
    true
}

// Whether no sum of the weights lies above threshold − off and below threshold + on.
pub fn keeps_margins(weights: &[i32], threshold: i32, on: u8, off: u8) -> bool
    requires { OnScale weights.now threshold }
    ensures { result ≡ every_sum (outside on off threshold) weights.now }
{
    if (on == 0) & (off == 1) {
        return true;
    }
    let (first, second) = weights.split_at(weights.len() / 2);
    let lows = table(first);
    let highs = table(second);
    let n = settings(first.len());
    let m = settings(second.len());
    let floor = threshold - i32::from(off);
    let ceiling = threshold + i32::from(on);
    lists_apart(&lows[n..2 * n], &highs[m..2 * m], floor, ceiling)
}
