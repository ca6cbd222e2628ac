// A lane is one of 64 places side by side, of which the processor steps several at a time: here lane f holds the signals on frame f. Each
// signal has a mask of 32 bits in each lane, all ones or all zeros. A gate's feeds are added 32 lanes at a time, whose sums fit the
// processor's registers.
ghost use Rattle.std.specs.Prelude.{◌≡◌, cond, ◌+◌, ◌*◌, ◌≤◌, pos, ◌+ℤ◌, get_or};
ghost use Rattle.std.specs.Int.Signed.{le_z};
ghost use Rattle.network.specs.Threshold.{bit};
ghost use Rattle.network.specs.Record.{gate_of};
ghost use Rattle.network.specs.Places.{Pasted};
ghost use Rattle.frame_reading.specs.Evaluation.{bits_in};
ghost use Rattle.frame_lanes.specs.Lanes.{mask_of, is_on, lane, LaneSums, CanAdd, CanSum, CanPut};

use network::Network;

// The mask of a bit.
pub fn mask_of(on: bool) -> i32
    ensures { result ≡ mask_of on }
{
    if on { -1 } else { 0 }
}

// A weight under a mask: the weight, or 0.
pub fn kept(mask: i32, weight: i32) -> i32
    requires { mask ≡ mask_of (is_on mask) }
    ensures { result ≡ cond (is_on mask) weight (pos 0) }
{
    mask & weight
}

// A feed added to the sums of 32 lanes: its weight where its mask, from a place on, is on.
fn add_feed(masks: &[i32; 16384], sums: &mut [i32; 32], from: usize, weight: i32)
    requires { CanAdd masks.now sums.old from weight }
    ensures { Pasted (pos 0) 0 32
        (λ f. get_or sums.old f (pos 0) +ℤ cond (is_on (get_or masks.now (from + f) (pos 0))) weight (pos 0))
        sums.old sums.new }
{
    for (f, sum) in sums.iter_mut().enumerate() {
        *sum += kept(masks[from + f], weight);
    }
}

// The sums of count feeds from place base on, in 32 lanes from lane block on.
fn lane_sums(
    network: &Network,
    masks: &[i32; 16384],
    base: usize,
    count: usize,
    block: usize,
) -> [i32; 32]
    requires { CanSum network.now.weights masks.now base count block }
    ensures { LaneSums masks.now network.now.signals network.now.weights base count block result }
{
    let signals = &network.signals[base..base + count];
    let weights = &network.weights[base..base + count];
    let mut sums = [0; 32];
    for (signal, weight) in signals.iter().zip(weights) {
        add_feed(masks, &mut sums, 64 * usize::from(*signal) + block, *weight);
    }
    sums
}

// The bits of 32 lanes by their sums and the threshold, put from a place on.
fn put_bits(masks: &mut [i32; 16384], sums: &[i32; 32], threshold: i32, from: usize)
    requires { from + 32 ≤ 16384 }
    ensures { Pasted (pos 0) from 32 (λ f. mask_of (le_z threshold (get_or sums.now f (pos 0)))) masks.old masks.new }
{
    for (f, sum) in sums.iter().enumerate() {
        masks[from + f] = mask_of(threshold <= *sum);
    }
}

// Gate g, with signal own, in 32 lanes from lane block on.
pub fn put_block(network: &Network, masks: &mut [i32; 16384], g: usize, own: usize, block: usize)
    requires { CanPut network.now.fanins network.now.weights masks.old g own block }
    ensures { Pasted (pos 0) (64 * own + block) 32
        (λ f. mask_of (bit (bits_in (lane masks.old (block + f))) (gate_of network.now g)))
        masks.old masks.new }
{
    let count = usize::from(network.fanins[g]);
    let sums = lane_sums(network, masks, 16 * g, count, block);
    put_bits(masks, &sums, network.thresholds[g], 64 * own + block);
}
