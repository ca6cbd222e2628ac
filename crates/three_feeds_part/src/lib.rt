// The bytes of a gate of the three-feed table on three signals, for a mask maker who writes a PMN file.
#![tactic(auto)]

ghost use Rattle.std.specs.Prelude.{◌≡◌, not, ◌≤◌, length};
ghost use Rattle.network.specs.Threshold.{digit};
ghost use Rattle.network.specs.Limits.{is_zero};
ghost use Rattle.network.specs.Record.{gate_in};
ghost use Rattle.three_feeds.specs.Rule.{gate_on_signals};
ghost use Rattle.three_feeds_part.specs.Parts.{put_in, bytes_in, mask_part, part_bytes_after};

use network::GateRecord;
use network_limits::is_zero;
use three_feeds::TableEntry;

// What `put_part` answers: how many bytes were put, the settings that rule every gate out, or the number of a refusal.
#[derive(Clone, Copy)]
pub enum MaskPart {
    // So many bytes stand at the front of the lent bytes.
    Put(usize),
    // No gate has the function: two settings that are 1, and two that are 0.
    NoGate {
        one: u8,
        other_one: u8,
        zero: u8,
        other_zero: u8,
    },
    // 5: the signals do not rise; 18: the lent bytes are too few.
    Refused(u8),
}

// How many feeds a weight stands for: none where it is 0.
fn fan_in(weight: i32) -> usize
    ensures { (result ≡ digit (not (is_zero weight))) × (result ≤ 1) }
{
    if is_zero(weight) { 0 } else { 1 }
}

// A gate on three signals in the form of its places. Each feed is stored behind those that stay, so that one of weight 0 is overwritten or
// stands behind the last feed.
fn gate_on(i: u8, j: u8, k: u8, a: i32, b: i32, c: i32, threshold: i32) -> GateRecord
    ensures result_value { gate_in result ≡ gate_on_signals i j k a b c threshold }
    ensures fanin_bound { result.fanin ≤ 3 }
{
    let mut signals = [0u8; 16];
    let mut weights = [0i32; 16];
    signals[0] = i;
    weights[0] = a;
    let one = fan_in(a);
    signals[one] = j;
    weights[one] = b;
    let two = one + fan_in(b);
    signals[two] = k;
    weights[two] = c;
    let fanin = (two + fan_in(c)) as u8;
    GateRecord {
        fanin,
        threshold,
        signals,
        weights,
    }
}

// The bytes of a gate on three signals, where there is room for them.
fn put_in(out: &mut [u8], i: u8, j: u8, k: u8, a: i32, b: i32, c: i32, threshold: i32) -> MaskPart
    ensures value { result ≡ put_in (gate_on_signals i j k a b c threshold) (length out.old) }
    ensures out_after { out.new ≡ bytes_in (gate_on_signals i j k a b c threshold) out.old }
{
    let gate = gate_on(i, j, k, a, b, c, threshold);
    if out.len() < 5 + 5 * usize::from(gate.fanin) {
        return MaskPart::Refused(18);
    }
    MaskPart::Put(pmn_writing::unchecked::put_gate(out, gate))
}

// The bytes of the table's gate for a truth table, on three signals that rise, at the front of the lent bytes; or the settings that rule
// every gate out. In order: 5 where the signals do not rise, the settings where there is no gate, 18 where the lent bytes are too few.
pub fn put_part(table: u8, i: u8, j: u8, k: u8, out: &mut [u8]) -> MaskPart
    ensures value { result ≡ mask_part table i j k (length out.old) }
    ensures out_after { out.new ≡ part_bytes_after table i j k out.old }
{
    if i >= j {
        return MaskPart::Refused(5);
    }
    if j >= k {
        return MaskPart::Refused(5);
    }
    let found = three_feeds::entry(table);
    match found {
        TableEntry::NoGate {
            one,
            other_one,
            zero,
            other_zero,
        } => MaskPart::NoGate {
            one,
            other_one,
            zero,
            other_zero,
        },
        TableEntry::HasGate {
            weight_0,
            weight_1,
            weight_2,
            threshold,
        } => put_in(out, i, j, k, weight_0, weight_1, weight_2, threshold),
    }
}
