// The sums of 16 weights by setting. The first 8 weights have 256 settings, and so have the last 8: a setting's sum is made of two. Each
// call asks for weights on the scale, so that no sum leaves 32 bits.
ghost use Rattle.std.specs.Prelude.{◌≡◌, ◌+◌, ◌-◌, ◌^◌, ◌≤◌, ◌<◌};
ghost use Rattle.basics.specs.SizeLaws.{SizesWithin};
ghost use Rattle.gate_sums.specs.Tables.{Sums, sum_from};

// The settings of `count` feeds.
pub fn settings(count: usize) -> usize
    requires { count ≤ 16 }
    ensures { result ≡ 2 ^ count }
{
    1 << count
}

// How many of `count` feeds stand in the high half: those after the first 8.
pub fn high_feeds(count: usize) -> usize
    ensures { result ≡ count - 8 }
{
    count.saturating_sub(8)
}

// Doubles the settings that a table has by those on which weight `bit` of each half is 1 too.
fn extend(weights: &[i32; 16], bit: usize, sums: &mut [i32; 512])
    requires bit_bound { bit < 8 }
    requires sizes_within { SizesWithin 1000000 weights.now }
    requires sums { Sums weights.now (2 ^ bit) sums.old }
    ensures { Sums weights.now (2 ^ (bit + 1)) sums.new }
{
    let low = weights[bit];
    let high = weights[8 + bit];
    let filled = settings(bit);
    // Kept: a turn reads place j of both halves and writes place filled + j of both; iterators over four parts are no plainer.
    for j in 0..filled {
        let x = sums[j] + low;
        let y = sums[256 + j] + high;
        let next = filled + j;
        sums[next] = x;
        sums[256 + next] = y;
    }
}

// The sums of the first 8 weights by setting, and from place 256 on those of the last 8.
pub fn table(weights: &[i32; 16]) -> [i32; 512]
    requires { SizesWithin 1000000 weights.now }
    ensures { Sums weights.now 256 result }
{
    let mut sums = [0i32; 512];
    for bit in 0..8 {
        extend(weights, bit, &mut sums);
    }
    sums
}

// The sum on a setting, from a table.
pub fn sum_at(sums: &[i32; 512], setting: usize) -> i32
    requires sizes_within { SizesWithin 8000000 sums.now }
    requires setting_bound { setting < 65536 }
    ensures { result ≡ sum_from sums.now setting }
{
    sums[setting % 256] + sums[256 + setting / 256]
}
