// The sums of some weights as a rising list, which each weight doubles: the sums without it and those with it, merged from both ends. The
// public call asks for at most 8 weights, each on the scale.
ghost use Rattle.std.specs.Prelude.{◌-◌, ◌^◌, ◌≤◌, length};
ghost use Rattle.basics.specs.SizeLaws.{SizesWithin};
ghost use Rattle.gate_rising.specs.Tables.{Growable, Grown, ChoiceOfTwo, PutFront, PutBack, HoldsSums};

// Puts the lower of the next two members at the front, a being those that were taken without the weight and b those with it. Answers 1
// for the one without.
fn put_front(sums: &mut [i32; 512], n: usize, weight: i32, a: usize, b: usize) -> usize
    requires { ChoiceOfTwo n weight a b sums.old }
    ensures { PutFront n weight a b sums.old sums.new result }
{
    let x = sums[n + a];
    let y = weight + sums[n + b];
    let place = 2 * n + (a + b);
    sums[place] = x.min(y);
    usize::from(x <= y)
}

// Puts the higher of the last two members at the back, c being those that are left without the weight and d those with it. Answers 1
// for the one with the weight.
fn put_back(sums: &mut [i32; 512], n: usize, weight: i32, c: usize, d: usize) -> usize
    requires { (1 ≤ c) × (1 ≤ d) × ChoiceOfTwo n weight (c - 1) (d - 1) sums.old }
    ensures { PutBack n weight c d sums.old sums.new result }
{
    let x = sums[n + (c - 1)];
    let y = weight + sums[n + (d - 1)];
    let place = 2 * n + (c + d - 1);
    sums[place] = x.max(y);
    usize::from(x <= y)
}

// The list of n sums doubled by a weight: the n sums, and the n sums with the weight, as one rising list, made from both ends to the
// middle.
fn grow(sums: &mut [i32; 512], n: usize, weight: i32)
    requires { Growable n weight sums.old }
    ensures { Grown n weight sums.old sums.new }
{
    let mut a: usize = 0;
    let mut b: usize = 0;
    let mut c = n;
    let mut d = n;
    // Kept: a turn goes by the four places that it moves, and k only counts the turns.
    for k in 0..n {
        let front = put_front(sums, n, weight, a, b);
        a += front;
        b += 1 - front;
        let back = put_back(sums, n, weight, c, d);
        d -= back;
        c -= 1 - back;
    }
}

// The sums of at most 8 weights, rising, from the place on that is their number.
pub fn table(weights: &[i32]) -> [i32; 512]
    requires weights_len_bound { length weights.now ≤ 8 }
    requires sizes_within { SizesWithin 1000000 weights.now }
    ensures { HoldsSums weights.now (2 ^ length weights.now) result }
{
    let mut sums = [0i32; 512];
    let mut n: usize = 1;
    for weight in weights.iter().rev() {
        grow(&mut sums, n, *weight);
        n *= 2;
    }
    sums
}
